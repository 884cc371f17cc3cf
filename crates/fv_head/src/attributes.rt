//! The attribute bits of a volume.

ghost use Rattle.std.specs.Prelude.{⊤, ◌≡◌, [], ◌∷◌, codes};
ghost use Rattle.fv_head.specs.VolumeAttributes.{polarity_of};

use bitflags::{Flag, Flags, bitflag_items};
use fv_base::Polarity;

/// All 32 attribute bits of a volume, as found. (PI specification, volume 3, section 3.2.1.1,
/// `EFI_FVB_ATTRIBUTES_2`.)
#[derive(Clone, Copy, PartialEq, Eq, Debug)]
pub struct FvAttributes(u32);

bitflag_items! {
    impl FvAttributes: u32 {
        /// `EFI_FVB2_READ_DISABLED_CAP`.
        const READ_DISABLED_CAP = 0x1;
        /// `EFI_FVB2_READ_ENABLED_CAP`.
        const READ_ENABLED_CAP = 0x2;
        /// `EFI_FVB2_READ_STATUS`.
        const READ_STATUS = 0x4;
        /// `EFI_FVB2_WRITE_DISABLED_CAP`.
        const WRITE_DISABLED_CAP = 0x8;
        /// `EFI_FVB2_WRITE_ENABLED_CAP`.
        const WRITE_ENABLED_CAP = 0x10;
        /// `EFI_FVB2_WRITE_STATUS`.
        const WRITE_STATUS = 0x20;
        /// `EFI_FVB2_LOCK_CAP`.
        const LOCK_CAP = 0x40;
        /// `EFI_FVB2_LOCK_STATUS`.
        const LOCK_STATUS = 0x80;
        /// `EFI_FVB2_STICKY_WRITE`.
        const STICKY_WRITE = 0x200;
        /// `EFI_FVB2_MEMORY_MAPPED`.
        const MEMORY_MAPPED = 0x400;
        /// `EFI_FVB2_ERASE_POLARITY`.
        const ERASE_POLARITY = 0x800;
        /// `EFI_FVB2_READ_LOCK_CAP`.
        const READ_LOCK_CAP = 0x1000;
        /// `EFI_FVB2_READ_LOCK_STATUS`.
        const READ_LOCK_STATUS = 0x2000;
        /// `EFI_FVB2_WRITE_LOCK_CAP`.
        const WRITE_LOCK_CAP = 0x4000;
        /// `EFI_FVB2_WRITE_LOCK_STATUS`.
        const WRITE_LOCK_STATUS = 0x8000;
        /// `EFI_FVB2_ALIGNMENT`.
        const ALIGNMENT = 0x1f_0000;
        /// `EFI_FVB2_WEAK_ALIGNMENT`.
        const WEAK_ALIGNMENT = 0x8000_0000;
    }
}

impl Flags for FvAttributes {
    type Bits = u32;

    ghost exact = { ⊤ };

    ghost table = { (codes "READ_DISABLED_CAP", 1) ∷ (codes "READ_ENABLED_CAP", 2) ∷ (codes "READ_STATUS", 4)
        ∷ (codes "WRITE_DISABLED_CAP", 8) ∷ (codes "WRITE_ENABLED_CAP", 16) ∷ (codes "WRITE_STATUS", 32)
        ∷ (codes "LOCK_CAP", 64) ∷ (codes "LOCK_STATUS", 128) ∷ (codes "STICKY_WRITE", 512)
        ∷ (codes "MEMORY_MAPPED", 1024) ∷ (codes "ERASE_POLARITY", 2048) ∷ (codes "READ_LOCK_CAP", 4096)
        ∷ (codes "READ_LOCK_STATUS", 8192) ∷ (codes "WRITE_LOCK_CAP", 16384) ∷ (codes "WRITE_LOCK_STATUS", 32768)
        ∷ (codes "ALIGNMENT", 2031616) ∷ (codes "WEAK_ALIGNMENT", 2147483648) ∷ [] };

    ghost set_of = { λ a. a.0 };

    fn flags<'a>() -> &'a [Flag<FvAttributes>] {
        FvAttributes::FLAGS
    }

    fn bits(&self) -> u32 {
        self.0
    }

    fn from_bits_retain(bits: u32) -> FvAttributes {
        FvAttributes(bits)
    }
}

impl FvAttributes {
    /// Returns the erase polarity: ones if bit 0x800, `EFI_FVB2_ERASE_POLARITY`, is set, and
    /// otherwise zeros.
    #[tactic(auto, using(crate::proofs::VolumeAttributeLemmas::bit_11))]
    pub fn polarity(self) -> Polarity
        ensures { result ≡ polarity_of self.0 }
    {
        if self.contains(FvAttributes::ERASE_POLARITY) {
            Polarity::Ones
        } else {
            Polarity::Zeros
        }
    }
}
