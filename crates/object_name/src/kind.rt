//! The two kinds of object.

ghost use Rattle.std.specs.Prelude.{◌≡◌, Some, IfSome};
ghost use Rattle.object_name.specs.Kind.{kind_of, letter_of_kind, rank_of_kind};

/// The most outputs of a thunk.
pub const MAX_OUTPUTS: usize = 64;

/// What an object is: bytes as they are, or a thunk that can be reduced.
#[derive(Clone, Copy, Debug, PartialEq, Eq, Hash)]
pub enum Kind {
    Value,
    Thunk,
}

/// The kind of some bytes: a thunk begins with `gg-thunk `, whoever wrote it.
pub fn kind_of(bytes: &[u8]) -> Kind
    ensures { result ≡ kind_of bytes.now }
{
    if bytes.starts_with(b"gg-thunk ") {
        Kind::Thunk
    } else {
        Kind::Value
    }
}

impl Kind {
    ghost use Rattle.object_name.specs.declared.kind.Kind.{Kind};

    /// The letter that the name of such an object begins with.
    pub(crate) fn letter(self) -> u8
        ensures { result ≡ letter_of_kind self }
    {
        match self {
            Kind::Value => b'V',
            Kind::Thunk => b'T',
        }
    }

    /// The rank of the kind in the order of names.
    pub(crate) fn rank(self) -> u8
        ensures { result ≡ rank_of_kind self }
    {
        match self {
            Kind::Value => 0,
            Kind::Thunk => 1,
        }
    }

    /// The kind of the objects whose names begin with this letter.
    pub(crate) fn of_letter(letter: u8) -> Option<Kind>
        ensures found { IfSome result (λ k. letter ≡ letter_of_kind k) }
        ensures only { (k : Kind) → letter ≡ letter_of_kind k → result ≡ Some k }
    {
        match letter {
            b'V' => Some(Kind::Value),
            b'T' => Some(Kind::Thunk),
            _ => None,
        }
    }
}
