//! The sizes in bytes of the structures that C shares. `libfv/include/fv.h` asserts the same.

use crate::canonical::FvSha256;
use crate::cells::FvCell;
use crate::compare::FvComparison;
use crate::depex::FvGuid;
use crate::header::FvHeader;
use crate::hobs::FvHob;
use crate::image_checks::FvVolumeCheck;
use crate::levels::{FvLevels, FvPacked};
use crate::reports::FvFault;
use crate::same::{FvPartPlace, FvSameness};
use crate::survey::FvSurveyRow;
use crate::tree::FvNode;
use crate::variables::FvVariableRow;
use std::mem::size_of;

const _: () = prove!(size_of::<FvFault>() == 24);

const _: () = prove!(size_of::<FvHeader>() == 64);

const _: () = prove!(size_of::<FvComparison>() == 16);

const _: () = prove!(size_of::<FvSha256>() == 32);

const _: () = prove!(size_of::<FvCell>() == 56);

const _: () = prove!(size_of::<FvVolumeCheck>() == 48);

const _: () = prove!(size_of::<FvSurveyRow>() == 56);

const _: () = prove!(size_of::<FvNode>() == 88);

const _: () = prove!(size_of::<FvGuid>() == 16);

const _: () = prove!(size_of::<FvHob>() == 32);

const _: () = prove!(size_of::<FvPacked>() == 72);

const _: () = prove!(size_of::<FvLevels>() == 24);

const _: () = prove!(size_of::<FvVariableRow>() == 104);

const _: () = prove!(size_of::<FvPartPlace>() == 32);

const _: () = prove!(size_of::<FvSameness>() == 72);
