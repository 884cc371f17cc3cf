//! Worked readings: small hand-off lists, byte by byte, with their blocks or their first fault. They
//! show that lists are accepted, and that each fault can be the first fault. None of these functions
//! does anything: their contracts are the readings.

ghost use Rattle.std.specs.Prelude.{◌∷◌, ◌++◌, [], take};
ghost use Rattle.fv_hob.specs.HobChecks.{IsFirstHobFault};
ghost use Rattle.fv_hob.specs.Lists.{IsHobList};
ghost use Rattle.fv_hob.specs.WorkedInputs.{end_block, end_bytes, header_of_12, hob_fault_at, long_table, table};
ghost use Rattle.fv_hob.specs.WorkedInputs.{table_bytes};

use crate::fault::HobFaultKind;

/// The smallest list, a hand-off information table of 56 bytes and an end block of 8 bytes, is
/// accepted as these two blocks. (PI specification, volume 3, section 5.)
pub fn smallest_list()
    ensures { IsHobList (table ∷ end_block ∷ []) (table_bytes ++ end_bytes) }
{}

/// Bytes that do not begin with a list, and the first fault of each of them. (PI specification,
/// volume 3, section 5.)
pub fn list_faults()
    ensures no_end { IsFirstHobFault [] (hob_fault_at HobFaultKind.NoEnd 0) }
    ensures end_lost { IsFirstHobFault table_bytes (hob_fault_at HobFaultKind.NoEnd 56) }
    ensures short { IsFirstHobFault (take 7 table_bytes) (hob_fault_at HobFaultKind.Short 0) }
    ensures length { IsFirstHobFault (table_bytes ++ header_of_12) (hob_fault_at HobFaultKind.Length 56) }
    ensures first { IsFirstHobFault end_bytes (hob_fault_at HobFaultKind.First 0) }
    ensures shape { IsFirstHobFault long_table (hob_fault_at HobFaultKind.Shape 0) }
{}
