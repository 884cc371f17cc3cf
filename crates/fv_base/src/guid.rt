//! Globally unique identifiers.

ghost use Rattle.std.specs.Prelude.{◌≡◌, ◌+◌, ◌≤◌, Some, length};
ghost use Rattle.fv_base.specs.Guids.{bytes_of};
ghost use Rattle.fv_base.specs.GuidTexts.{guid_text, guid_read};
ghost use Rattle.fv_base.specs.Value.{field};

use crate::field::field;
use uuid::Uuid;

/// A GUID (`EFI_GUID`): its sixteen bytes, as a volume stores them. (PI specification, volume 1;
/// UEFI specification, appendix A.)
#[derive(Clone, Copy, Debug, PartialEq, Eq, PartialOrd, Ord)]
pub struct Guid {
    bytes: [u8; 16],
}

impl Guid {
    /// Returns the GUID with these sixteen bytes, in the order in which a volume stores them.
    pub const fn from_bytes(bytes: [u8; 16]) -> Guid
        ensures { bytes_of result ≡ bytes }
    {
        Guid { bytes }
    }

    /// Returns the sixteen bytes, in the order in which a volume stores them.
    pub const fn to_bytes(self) -> [u8; 16]
        ensures { result ≡ bytes_of self }
    {
        self.bytes
    }

    /// Reads a GUID from a text in one of the four forms that `uuid` accepts: 32 hexadecimal
    /// digits; the digits with hyphens (8-4-4-4-12); the form with hyphens in braces; or the form
    /// with hyphens after `urn:uuid:`. The digits and `urn:uuid:` may be of either case. Returns
    /// None if `uuid` rejects the text.
    #[tactic(auto, using(crate::proofs::GuidLemmas::names_none))]
    pub fn parse(text: &str) -> Option<Guid>
        ensures { result ≡ guid_read text.now }
    {
        match Uuid::parse_str(text) {
            Ok(uuid) => Some(Guid::from_bytes(uuid.to_bytes_le())),
            Err(_) => None,
        }
    }

    /// Returns the text of the GUID, 36 characters: 8-4-4-4-12 lower-case digits. The three numbers
    /// come first, each with its most significant digit first. The last eight bytes follow in
    /// order.
    pub fn text(self) -> [u8; 36]
        ensures text { result ≡ guid_text (bytes_of self) }

        // Reading this text gives the GUID back.
        ensures read { guid_read result ≡ Some self }
    {
        let mut buffer = Uuid::encode_buffer();
        let uuid = Uuid::from_bytes_le(self.bytes);
        let written = uuid.hyphenated().encode_lower(&mut buffer);
        let mut text = [0u8; 36];
        text.copy_from_slice(written.as_bytes());
        text
    }
}

/// Returns the GUID at the offset `at`. Its 16 bytes must lie within `bytes`.
pub fn guid_at(bytes: &[u8], at: usize) -> Guid
    requires { at + 16 ≤ length bytes.now }
    ensures { bytes_of result ≡ field at 16 bytes.now }
{
    let mut name = [0u8; 16];
    name.copy_from_slice(field(bytes, at, 16));
    Guid::from_bytes(name)
}
