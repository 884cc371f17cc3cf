//! The findings of a row: which rules of the strict reader the bytes break.

ghost use Rattle.std.specs.Prelude.{◌≡◌, ◌==◌};
ghost use Rattle.fv_survey.specs.FindingSets.{bit_of_kind, bits_of, has_finding, only, united, with_if, with_kind};

use fv_base::FaultKind;

/// A set of kinds of faults. Bit N is set if the fault with the number N is in the set.
#[derive(Clone, Copy, Debug, PartialEq, Eq)]
pub struct Findings {
    bits: u32,
}

// Returns the bit of a kind: 2 to the power of its number.
fn bit_of(kind: FaultKind) -> u32
    ensures { result ≡ bit_of_kind kind }
{
    match kind {
        FaultKind::Truncated => 0x2,
        FaultKind::Signature => 0x4,
        FaultKind::FileSystem => 0x8,
        FaultKind::Revision => 0x10,
        FaultKind::HeaderLength => 0x20,
        FaultKind::HeaderSum => 0x40,
        FaultKind::BlockMap => 0x80,
        FaultKind::Length => 0x100,
        FaultKind::ExtHeader => 0x200,
        FaultKind::FileState => 0x400,
        FaultKind::FileHeaderSum => 0x800,
        FaultKind::FileSize => 0x1000,
        FaultKind::LargeFile => 0x2000,
        FaultKind::FileSum => 0x4000,
        FaultKind::Fixed => 0x8000,
        FaultKind::FreeSpace => 0x1_0000,
        FaultKind::DuplicateName => 0x2_0000,
        FaultKind::TopFile => 0x4_0000,
        FaultKind::SectionSize => 0x8_0000,
        FaultKind::SectionTail => 0x10_0000,
        FaultKind::Depth => 0x20_0000,
        FaultKind::NoRoom => 0x40_0000,
        FaultKind::TopAlignment => 0x80_0000,
        FaultKind::OutOfMemory => 0x100_0000,
        FaultKind::ReadFault => 0x200_0000,
        FaultKind::WriteFault => 0x400_0000,
    }
}

impl Findings {
    /// The empty set.
    pub const NONE: Findings = Findings { bits: 0 };

    /// Returns the set of one kind.
    pub fn of(kind: FaultKind) -> Findings
        ensures { result ≡ only kind }
    {
        Findings { bits: bit_of(kind) }
    }

    /// Returns the set with one more kind.
    pub fn with(self, kind: FaultKind) -> Findings
        ensures { result ≡ with_kind kind self }
    {
        Findings {
            bits: self.bits | bit_of(kind),
        }
    }

    /// Returns the set with one more kind, if `broken` is true.
    pub fn with_if(self, broken: bool, kind: FaultKind) -> Findings
        ensures { result ≡ with_if broken kind self }
    {
        if broken { self.with(kind) } else { self }
    }

    // Returns the kinds of both sets.
    pub(crate) fn union(self, other: Findings) -> Findings
        ensures { result ≡ united self other }
    {
        Findings {
            bits: self.bits | other.bits,
        }
    }

    /// Returns whether the set is empty.
    pub fn is_empty(self) -> bool
        ensures { result ≡ (bits_of self == 0) }
    {
        self.bits == 0
    }

    /// Returns whether the kind is in the set.
    pub fn contains(self, kind: FaultKind) -> bool
        ensures { result ≡ has_finding kind self }
    {
        self.bits >> u32::from(kind.number()) & 1 == 1
    }

    /// Returns the set as a number: bit N is set if the fault with the number N is in the set.
    pub fn bits(self) -> u32
        ensures { result ≡ bits_of self }
    {
        self.bits
    }
}
