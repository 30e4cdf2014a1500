//! References to objects: values by name, and outputs of thunks.

ghost use Rattle.std.specs.Prelude.{◌≡◌, ◌↔◌, ◌++◌, ◌∷◌, ◌<◌, IsTrue, take, length, decimal, IfSome, Some, OnOk, OnErr};
ghost use Rattle.object_name.specs.Name.{IsName, spelling_len};
ghost use Rattle.thunk_codec.specs.declared.reference.Ref.{Ref};
ghost use Rattle.thunk_codec.specs.declared.reference.Ref.TheVariants.{Value, Out};
ghost use Rattle.object_name.specs.declared.kind.Kind.TheVariants as kinds;
ghost use Rattle.thunk_codec.specs.Reference.{IsRef, ref_text, ref_of, value_ref_of, out_ref_of};
ghost use Rattle.thunk_codec.specs.Job.{ref_name};

use object_name::{Bytes, Kind, Name, SPELLING_LEN, TryCopy, read_number, write_number};
use std::alloc::{AllocError, Global};

/// A value by its name, or an output of a thunk by the thunk's name and the output's index, from 0.
#[derive(Clone, Copy, Debug, PartialEq, Eq)]
pub enum Ref {
    Value(Name),
    Out(Name, u32),
}

impl Ref {
    ghost use Rattle.thunk_codec.specs.declared.reference.Ref.{Ref};
    ghost use Rattle.thunk_codec.specs.Reference.{IsRef, ref_text, ref_of};
    ghost use Rattle.thunk_codec.specs.Job.{ref_name};

    /// The value of a name.
    pub(crate) fn value(name: &Name) -> Ref
        requires { name.now.kind ≡ kinds.Value }
        ensures made { result ≡ Value name.now }
        ensures name { IsName name.now }
    {
        prove!(name.kind() == Kind::Value);
        Ref::Value(*name)
    }

    /// An output of the thunk of a name.
    pub(crate) fn output(name: &Name, index: u32) -> Ref
        requires { name.now.kind ≡ kinds.Thunk }
        ensures made { result ≡ Out name.now index }
        ensures name { IsName name.now }
    {
        prove!(name.kind() == Kind::Thunk);
        Ref::Out(*name, index)
    }

    /// The name in it.
    pub fn name(&self) -> &Name
        ensures { result.now ≡ ref_name self.now }
    {
        match self {
            Ref::Value(name) => name,
            Ref::Out(name, _) => name,
        }
    }

    /// The reference that a text spells: the name of a value, or the name of a thunk, `#`, and a decimal number below 2^32.
    #[tactic(auto, unfolding(crate::specs::Reference::ref_of))]
    pub fn read(text: &[u8]) -> Option<Ref>
        ensures found { IfSome result (λ r. IsRef r × (text.now ≡ ref_text r)) }
        ensures only { (r : Ref) → IsRef r → text.now ≡ ref_text r → result ≡ Some r }
        ensures exact { result ≡ ref_of text.now }
    {
        read_ref(text)
    }

    /// Appends the spelling.
    pub fn write(&self, out: &mut Bytes) -> Result<(), AllocError>
        ensures ok { OnOk result (out.new ≡ out.old ++ ref_text self.now) }
        ensures err { OnErr result (out.new ≡ out.old) }
    {
        let mut spelling = [0; SPELLING_LEN];
        self.name().spell(&mut spelling);
        match self {
            Ref::Value(_) => out.append(&spelling),
            Ref::Out(_, index) => write_output(&spelling, *index, out),
        }
    }
}

impl TryCopy for Ref {
    fn copy(&self, _alloc: Global) -> Result<Self, AllocError> {
        Ok(*self)
    }
}

/// Whether a value may have this name.
fn is_value(name: &Name) -> bool
    ensures { IsTrue result ↔ IsRef (Value name.now) }
{
    name.kind() == Kind::Value
}

/// Whether a thunk may have this name, of which this is an output.
fn is_output(name: &Name, _index: u32) -> bool
    ensures { IsTrue result ↔ IsRef (Out name.now _index) }
{
    name.kind() == Kind::Thunk
}

/// Whether a reference names an object of its kind.
pub fn is_ref(reference: &Ref) -> bool
    ensures { IsTrue result ↔ IsRef reference.now }
{
    match reference {
        Ref::Value(name) => is_value(name),
        Ref::Out(name, index) => is_output(name, *index),
    }
}

/// The value that a text names.
fn read_value(text: &[u8]) -> Option<Ref>
    ensures { result ≡ value_ref_of text.now }
{
    let name = Name::read(text)?;
    match name.kind() {
        Kind::Value => Some(Ref::Value(name)),
        Kind::Thunk => None,
    }
}

/// The output that a text names.
fn read_output(text: &[u8]) -> Option<Ref>
    requires { spelling_len < length text.now }
    ensures { result ≡ out_ref_of text.now }
{
    let (prefix, rest) = text.split_at(SPELLING_LEN);
    let name = Name::read(prefix)?;
    if name.kind() == Kind::Value {
        return None;
    }
    if rest[0] != b'#' {
        return None;
    }
    let index = read_number(&rest[1..])?;
    if index > u64::from(u32::MAX) {
        return None;
    }
    Some(Ref::Out(name, index as u32))
}

/// The reference that a text spells.
#[tactic(auto, unfolding(crate::specs::Reference::ref_of))]
fn read_ref(text: &[u8]) -> Option<Ref>
    ensures { result ≡ ref_of text.now }
{
    if text.len() <= SPELLING_LEN {
        read_value(text)
    } else {
        read_output(text)
    }
}

/// Appends the spelling of an output, whose thunk is spelled so.
fn write_output(spelling: &[u8], index: u32, out: &mut Bytes) -> Result<(), AllocError>
    ensures ok { OnOk result (out.new ≡ out.old ++ (spelling.now ++ 35 ∷ decimal index)) }
    ensures err { OnErr result (out.new ≡ out.old) }
{
    let len = out.len();
    let done = append_output(spelling, index, out);
    if done.is_err() {
        out.0.truncate(len);
    }
    done
}

/// Appends the spelling of an output, or a prefix of it.
fn append_output(spelling: &[u8], index: u32, out: &mut Bytes) -> Result<(), AllocError>
    ensures ok { OnOk result (out.new ≡ out.old ++ (spelling.now ++ 35 ∷ decimal index)) }
    ensures kept { take (length out.old) out.new ≡ out.old }
{
    out.append(spelling)?;
    out.append(b"#")?;
    write_number(u64::from(index), out)
}
