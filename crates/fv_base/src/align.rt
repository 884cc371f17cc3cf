//! The alignment of a file's data.

ghost use Rattle.std.specs.Prelude.{◌≡◌, ◌^◌};
ghost use Rattle.fv_base.specs.Alignment.{alignment_of};
ghost use Rattle.fv_base.specs.Measures.{IsAlignment};

use std::marker::Model;

/// The alignment of a file's data, counted from the first byte of its volume: a power of two.
/// Contracts see its exponent. (PI specification, volume 3, section 3.2.3.1,
/// `FFS_ATTRIB_DATA_ALIGNMENT` and `FFS_ATTRIB_DATA_ALIGNMENT_2`.)
#[derive(Clone, Copy, Debug, PartialEq, Eq)]
pub struct Align {
    exponent: u32,
}

impl Model for Align {
    ghost use Rattle.std.specs.Prelude.{ℕ, ◌≤◌};

    ghost Value = { ℕ };

    ghost view = { λ a. a.exponent };

    ghost inverse = { λ n. record { exponent = n } };

    ghost invariant = { λ a. a.exponent ≤ 24 };
}

/// The exponents of the sixteen alignments: the first table, then the second.
const EXPONENTS: [u32; 16] = [0, 4, 7, 9, 10, 12, 15, 16, 17, 18, 19, 20, 21, 22, 23, 24];

impl Align {
    /// Returns the alignment that a file's attribute bits select. Bits 0x08, 0x10 and 0x20
    /// (`FFS_ATTRIB_DATA_ALIGNMENT`) are the alignment code; bit 0x02
    /// (`FFS_ATTRIB_DATA_ALIGNMENT_2`) selects the second table. No other bit matters.
    pub fn from_attributes(attributes: u8) -> Align
        ensures { 2 ^ result ≡ alignment_of attributes }
    {
        let code = attributes / 8 % 8;
        let second = attributes / 2 % 2;
        Align {
            exponent: EXPONENTS[usize::from(code + 8 * second)],
        }
    }

    /// Returns the alignment in bytes: a power of two, at most 2 ^ 24.
    pub fn bytes(self) -> u64
        ensures value { result ≡ 2 ^ self }
        ensures power { IsAlignment result }
    {
        1 << self.exponent
    }
}
