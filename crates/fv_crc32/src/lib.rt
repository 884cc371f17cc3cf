//! The CRC-32 of the UEFI specification (2.10, section 7.5, CalculateCrc32), which EDK II writes into
//! the header of a CRC32 section (EFI_CRC32_GUIDED_SECTION; PI specification, volume 3). `crc32`
//! returns exactly the result of a division bit by bit.
#![tactic(auto)]

mod checksum;
pub mod further_laws;
mod table;
pub mod worked_checksums;

pub use checksum::crc32;
