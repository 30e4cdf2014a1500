//! Names of objects by their content.

ghost use Rattle.std.specs.Prelude.{◌≡◌, ◌≤◌, ◌↔◌, length, Some, IsOk, IfOk, IfErr, IfSome};
ghost use Rattle.std.proofs.Common.{rules};
ghost use Rattle.std.specs.Cmp.{partial_order_from_own_ties};
ghost use Rattle.std.specs.Cmp.Rules.{comparing};
ghost use Rattle.std.specs.Ordering.{as_partial_cmp};
ghost use Rattle.object_name.specs.Name.{ObjectName, IsName, max_size, name_cmp, name_of, named_by, spelling};

use crate::kind::{Kind, kind_of};
use crate::spelling::{is_digest, read_digest, read_size, spell_digest, spell_size};
use sha2::{Digest, Sha256};
use std::cmp::Ordering;
use std::marker::Model;

/// The greatest size of an object, in bytes.
pub const MAX_SIZE: u32 = 16_777_216;

/// How many characters spell a name.
pub const SPELLING_LEN: usize = 52;

/// Where the size stands in a spelling, after the letter and the digest.
const SIZE_AT: usize = 44;

/// The name of an object: the kind, the SHA-256 digest (FIPS 180-4) and the size of its bytes.
#[derive(Clone, Copy, Debug, PartialEq, Eq, Hash)]
pub struct Name {
    kind: Kind,
    digest: [u8; 32],
    size: u32,
}

impl Model for Name {
    ghost use Rattle.std.specs.Prelude.{◌≤◌};
    ghost use Rattle.object_name.specs.Name.{ObjectName, max_size};

    ghost Value = { ObjectName };

    ghost view = { λ n. record { kind = n.kind; digest = n.digest; size = n.size } };

    ghost invariant = { λ n. n.size ≤ max_size };

    ghost inverse = { λ n. record { kind = n.kind; digest = n.digest; size = n.size } };
}

impl Ord for Name {
    ghost cmp = { name_cmp };

    ghost total = { Prim.search (comparing, rules) };

    ghost matches_partial_cmp = { Prim.search (comparing, rules) };

    ghost matches_eq = { Prim.search (comparing, rules) };

    fn cmp(&self, other: &Name) -> Ordering {
        self.digest
            .as_slice()
            .cmp(&other.digest.as_slice())
            .then(self.size.cmp(&other.size))
            .then(self.kind.rank().cmp(&other.kind.rank()))
    }
}

impl PartialOrd for Name {
    ghost partial_cmp = { as_partial_cmp name_cmp };

    ghost laws = { partial_order_from_own_ties (Prim.search (comparing, rules)) (Prim.search (comparing, rules)) };

    fn partial_cmp(&self, other: &Name) -> Option<Ordering> {
        Some(self.cmp(other))
    }
}

/// Bytes over the greatest size of an object have no name.
#[derive(Clone, Copy, Debug, PartialEq, Eq)]
pub struct TooLong {
    /// How many bytes they are.
    pub len: usize,
}

/// The name of some bytes, of which there are at most 16,777,216.
pub fn name_of(bytes: &[u8]) -> Result<Name, TooLong>
    ensures named { IfOk result (λ n. n ≡ name_of bytes.now) }
    ensures ok { IsOk result ↔ (length bytes.now ≤ max_size) }
    ensures too_long { IfErr result (λ e. e.len ≡ length bytes.now) }
{
    let len = bytes.len();
    if len > MAX_SIZE as usize {
        return Err(TooLong { len });
    }
    Ok(Name {
        kind: kind_of(bytes),
        digest: Sha256::digest(bytes),
        size: len as u32,
    })
}

impl Name {
    /// The kind of the object.
    pub fn kind(&self) -> Kind
        ensures kind { result ≡ self.now.kind }
        ensures name { IsName self.now }
    {
        prove!(is_digest(&self.digest));
        self.kind
    }

    pub fn digest(&self) -> [u8; 32]
        ensures { result ≡ self.now.digest }
    {
        self.digest
    }

    /// The size in bytes.
    pub fn size(&self) -> u32
        ensures size { result ≡ self.now.size }
        ensures limit { result ≤ max_size }
    {
        self.size
    }

    /// The name that a text spells. A spelling is read by its form alone, whether or not there are such bytes.
    pub fn read(text: &[u8]) -> Option<Name>
        ensures found { IfSome result (λ n. IsName n × (text.now ≡ spelling n)) }
        ensures only { (n : ObjectName) → IsName n → text.now ≡ spelling n → result ≡ Some n }
        ensures exact { result ≡ named_by text.now }
    {
        if text.len() != SPELLING_LEN {
            return None;
        }
        let kind = Kind::of_letter(text[0])?;
        let digest = read_digest(&text[1..SIZE_AT])?;
        let size = read_size(&text[SIZE_AT..])?;
        Some(Name { kind, digest, size })
    }

    /// Writes the spelling.
    pub fn spell(&self, into: &mut [u8; SPELLING_LEN])
        ensures spelled { into.new ≡ spelling self.now }
        ensures name { IsName self.now }
    {
        prove!(is_digest(&self.digest));
        into[0] = self.kind.letter();
        spell_digest(&self.digest, &mut into[1..SIZE_AT]);
        spell_size(self.size, &mut into[SIZE_AT..]);
    }
}
