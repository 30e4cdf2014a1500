//! The parts of a name's spelling: the digest and the size.

ghost use Rattle.std.specs.Prelude.{◌≡◌, ◌≤◌, ℕ, List, IsTrue, length, take, Some, IfSome};
ghost use Rattle.std.specs.Int.{w32, to_be_bytes};
ghost use Rattle.base64.specs.GeneralPurpose.{encode_of, IsBytes};
ghost use Rattle.base64.specs.Engines.{url_safe_no_pad};
ghost use Rattle.hex.specs.Hex.{encode_lower};
ghost use Rattle.object_name.specs.Name.{max_size};

use base64::engine::general_purpose::URL_SAFE_NO_PAD;

/// How many characters spell a digest.
pub(crate) const DIGEST_TEXT: usize = 43;

/// How many characters spell a size.
pub(crate) const SIZE_TEXT: usize = 8;

/// Whether a digest is 32 bytes, of which its type makes sure.
pub(crate) fn is_digest(digest: &[u8; 32]) -> bool
    ensures holds { IsTrue result }
    ensures bytes { IsBytes digest.now }
    ensures whole { length digest.now ≡ 32 }
{
    digest.as_slice().len() == 32
}

/// Writes a digest in the URL-safe alphabet, without padding.
pub(crate) fn spell_digest(digest: &[u8; 32], into: &mut [u8])
    requires { length into.old ≡ DIGEST_TEXT }
    ensures { into.new ≡ encode_of url_safe_no_pad digest.now }
{
    let _ = URL_SAFE_NO_PAD.encode_slice(digest, into);
}

/// Writes a size in eight lower-case hexadecimal digits.
pub(crate) fn spell_size(size: u32, into: &mut [u8])
    requires { length into.old ≡ SIZE_TEXT }
    ensures { into.new ≡ encode_lower (to_be_bytes w32 size) }
{
    let bytes = size.to_be_bytes();
    let _ = hex::encode_to_slice(bytes.as_slice(), into);
}

/// The first 32 bytes, which a digest was decoded to.
fn decoded_digest(decoded: &[u8; 33]) -> [u8; 32]
    ensures prefix { result ≡ take 32 decoded.now }
    ensures bytes { IsBytes result }
    ensures whole { length result ≡ 32 }
{
    let mut digest = [0u8; 32];
    digest.copy_from_slice(&decoded[..32]);
    digest
}

/// The digest that a text spells.
pub(crate) fn read_digest(text: &[u8]) -> Option<[u8; 32]>
    requires { length text.now ≡ DIGEST_TEXT }
    ensures found { IfSome result (λ d. (text.now ≡ encode_of url_safe_no_pad d) × IsBytes d × (length d ≡ 32)) }
    ensures only { (d : List ℕ) → IsBytes d → length d ≡ 32 → text.now ≡ encode_of url_safe_no_pad d → result ≡ Some d }
{
    let mut decoded = [0u8; 33];
    let Ok(len) = URL_SAFE_NO_PAD.decode_slice_unchecked(text, &mut decoded) else {
        return None;
    };
    if len != 32 {
        return None;
    }
    Some(decoded_digest(&decoded))
}

/// The size within the limit that a text spells.
pub(crate) fn read_size(text: &[u8]) -> Option<u32>
    requires { length text.now ≡ SIZE_TEXT }
    ensures found { IfSome result (λ n. (text.now ≡ encode_lower (to_be_bytes w32 n)) × (n ≤ max_size)) }
    ensures only { (n : ℕ) → n ≤ max_size → text.now ≡ encode_lower (to_be_bytes w32 n) → result ≡ Some n }
{
    let mut bytes = [0u8; 4];
    if hex::decode_to_slice(text, &mut bytes).is_err() {
        return None;
    }
    let size = u32::from_be_bytes(bytes);
    if size > crate::name::MAX_SIZE {
        return None;
    }
    let mut again = [0u8; 8];
    spell_size(size, &mut again);
    if text != again.as_slice() {
        return None;
    }
    Some(size)
}
