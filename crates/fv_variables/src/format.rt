//! The headers of EDK II's variable stores and of their variables. Numbers are stored little-endian.
//! (VariableFormat.h of EDK II.)

ghost use Rattle.std.specs.Prelude.{◌≡◌, ◌≤◌, ◌<◌, ◌+◌, length, IfSome, IfNone};
ghost use Rattle.fv_base.specs.Words.{field};
ghost use Rattle.fv_variables.specs.Format.{authentication_in, data_in, header_in, header_len, header_len_by, is_unfinished, name_in};
ghost use Rattle.fv_variables.specs.Format.{sizes_at, status_by, variable_in, variable_len};

use fv_base::field::{field, u32_at, u64_at};
use fv_base::{Guid, guid_at};

/// The length of the header of a store in bytes.
pub(crate) const STORE_HEADER_LEN: usize = 28;

/// The format of the variables of a store.
#[derive(Clone, Copy, Debug, PartialEq, Eq)]
pub enum StoreFormat {
    /// VARIABLE_HEADER, of 32 bytes: the signature of the store is gEfiVariableGuid.
    Plain,
    /// AUTHENTICATED_VARIABLE_HEADER, of 60 bytes: the signature of the store is
    /// gEfiAuthenticatedVariableGuid.
    Authenticated,
}

impl StoreFormat {
    /// Returns the length of the header of a variable in bytes: 32 or 60.
    pub fn header_len(self) -> usize
        ensures { result ≡ header_len self }
    {
        match self {
            StoreFormat::Plain => 32,
            StoreFormat::Authenticated => 60,
        }
    }

    // Returns the offset of NameSize in the header of a variable. DataSize and VendorGuid follow.
    fn sizes_at(self) -> usize
        ensures { result ≡ sizes_at self }
    {
        match self {
            StoreFormat::Plain => 8,
            StoreFormat::Authenticated => 36,
        }
    }
}

/// The header of a store, VARIABLE_STORE_HEADER, of 28 bytes.
#[derive(Clone, Copy, Debug, PartialEq, Eq)]
pub struct StoreHeader {
    /// The format of the variables, which Signature names.
    pub format: StoreFormat,
    /// Size: the length of the store in bytes, including this header.
    pub size: u32,
    /// Format: 0x5A (VARIABLE_STORE_FORMATTED) in a store that EDK II uses.
    pub formatted: u8,
    /// State: 0xFE (VARIABLE_STORE_HEALTHY) in a store that EDK II uses.
    pub state: u8,
}

/// The fields that only an AUTHENTICATED_VARIABLE_HEADER has.
#[derive(Clone, Copy, Debug, PartialEq, Eq)]
pub struct Authentication {
    /// MonotonicCount.
    pub monotonic_count: u64,
    /// TimeStamp, the 16 bytes of an EFI_TIME.
    pub time_stamp: [u8; 16],
    /// PubKeyIndex.
    pub public_key: u32,
}

/// The fields of the header of a variable.
#[derive(Clone, Copy, Debug, PartialEq, Eq)]
pub struct Variable {
    /// State, as it is stored.
    pub state: u8,
    /// Attributes: EFI_VARIABLE_NON_VOLATILE is 0x01, EFI_VARIABLE_BOOTSERVICE_ACCESS 0x02,
    /// EFI_VARIABLE_RUNTIME_ACCESS 0x04, and
    /// EFI_VARIABLE_TIME_BASED_AUTHENTICATED_WRITE_ACCESS 0x20.
    pub attributes: u32,
    /// The fields of an authenticated variable, or None in a plain store.
    pub authentication: Option<Authentication>,
    /// NameSize: the length of the name in bytes, including its final zeros.
    pub name_size: u32,
    /// DataSize: the length of the data in bytes.
    pub data_size: u32,
    /// VendorGuid.
    pub vendor: Guid,
}

/// What the byte State of a variable says.
#[derive(Clone, Copy, Debug, PartialEq, Eq)]
pub enum VariableStatus {
    /// 0x3F, VAR_ADDED: the variable is there.
    Added,
    /// 0x3E, VAR_ADDED with VAR_IN_DELETED_TRANSITION: the variable is about to be replaced. It is
    /// there as long as no other variable with its name and vendor is added.
    Replaced,
    /// 0x3D or 0x3C, VAR_ADDED with VAR_DELETED: the variable was deleted.
    Deleted,
    /// 0x7F, VAR_HEADER_VALID_ONLY: only the header was written in full.
    HeaderOnly,
    /// Any other byte, which EDK II does not write.
    Other,
}

impl Variable {
    /// Returns what State says.
    pub fn status(self) -> VariableStatus
        ensures { result ≡ status_by self.state }
    {
        match self.state {
            0x3f => VariableStatus::Added,
            0x3e => VariableStatus::Replaced,
            0x3d | 0x3c => VariableStatus::Deleted,
            0x7f => VariableStatus::HeaderOnly,
            _ => VariableStatus::Other,
        }
    }

    /// Returns the length of the header in bytes: 32, or 60 for an authenticated variable.
    pub fn header_len(self) -> usize
        ensures { result ≡ header_len_by self.authentication }
    {
        match self.authentication {
            None => 32,
            Some(_) => 60,
        }
    }

    /// Returns the name, in UTF-16. `bytes` are the bytes of the variable's row; the result is None if
    /// they are too short for the name.
    pub fn name(self, bytes: &[u8]) -> Option<&[u8]>
        ensures some { IfSome result (λ name. name.now ≡ name_in self bytes.now) }
        ensures none { IfNone result (length bytes.now < header_len_by self.authentication + self.name_size) }
    {
        part_of(bytes, self.header_len(), self.name_size as usize)
    }

    /// Returns the data. `bytes` are the bytes of the variable's row; the result is None if they are
    /// too short for the data.
    pub fn data(self, bytes: &[u8]) -> Option<&[u8]>
        ensures some { IfSome result (λ payload. payload.now ≡ data_in self bytes.now) }
        ensures none { IfNone result (length bytes.now < variable_len self) }
    {
        let start = self.header_len() + self.name_size as usize;
        part_of(bytes, start, self.data_size as usize)
    }

    // Returns whether the header was never finished: EDK II then takes both sizes as 0.
    pub(crate) fn is_unfinished(&self) -> bool
        ensures { result ≡ is_unfinished self.now }
    {
        self.state == 0xff
            || self.attributes == u32::MAX
            || self.name_size == u32::MAX
            || self.data_size == u32::MAX
    }
}

// Returns the `size` bytes from the offset `start` on, or None if there are fewer.
pub(crate) fn part_of(bytes: &[u8], start: usize, size: usize) -> Option<&[u8]>
    ensures some { IfSome result (λ part. part.now ≡ field start size bytes.now) }
    ensures none { IfNone result (length bytes.now < start + size) }
{
    if bytes.len() < start || bytes.len() - start < size {
        return None;
    }
    Some(field(bytes, start, size))
}

// Returns the header of the store at the start of the bytes.
pub(crate) fn header_in(bytes: &[u8], format: StoreFormat) -> StoreHeader
    requires { 28 ≤ length bytes.now }
    ensures { result ≡ header_in format bytes.now }
{
    StoreHeader {
        format,
        size: u32_at(bytes, 16),
        formatted: bytes[20],
        state: bytes[21],
    }
}

// Returns the fields that only an authenticated variable has.
fn authentication_in(bytes: &[u8]) -> Authentication
    requires { 60 ≤ length bytes.now }
    ensures { result ≡ authentication_in bytes.now }
{
    let mut time_stamp = [0u8; 16];
    time_stamp.copy_from_slice(field(bytes, 16, 16));
    Authentication {
        monotonic_count: u64_at(bytes, 8),
        time_stamp,
        public_key: u32_at(bytes, 32),
    }
}

// Returns the fields of the header of the variable at the start of the bytes.
pub(crate) fn variable_in(bytes: &[u8], format: StoreFormat) -> Variable
    requires { header_len format ≤ length bytes.now }
    ensures { result ≡ variable_in format bytes.now }
{
    let authentication = match format {
        StoreFormat::Plain => None,
        StoreFormat::Authenticated => Some(authentication_in(bytes)),
    };
    let sizes = format.sizes_at();
    Variable {
        state: bytes[2],
        attributes: u32_at(bytes, 4),
        authentication,
        name_size: u32_at(bytes, sizes),
        data_size: u32_at(bytes, sizes + 4),
        vendor: guid_at(bytes, sizes + 8),
    }
}
