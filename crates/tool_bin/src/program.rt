//! A program, as objects are added to it.

ghost use Rattle.std.specs.Prelude.{◌≡◌, ◌++◌, fold, IfOk, OnOk};
ghost use Rattle.std.specs.List.{list_all, list_any};
ghost use Rattle.tool_bin.specs.Program.{empty_program, is_undefined, defined_with, wanted_by, wanted_with, with_object, is_asked, with_asked, all_defined};

use crate::instruction::Instruction;
use crate::link_fault::LinkFault;
use crate::names::Names;
use crate::object::{DebugLine, Object, Symbol};
use object_name::{Bytes, Many, TryCopy};
use std::alloc::{AllocError, Global};

/// The symbols and the debug lines of the objects so far, the names that they define, and those that are wanted: `main` and
/// what is called.
#[derive(Drop)]
pub(crate) struct Program {
    pub(crate) symbols: Many<Symbol>,
    pub(crate) debug: Many<DebugLine>,
    pub(crate) defined: Names,
    pub(crate) wanted: Names,
}

/// What a step of a link gives.
pub(crate) type Linked = Result<Program, LinkFault>;

/// The defined names with those of some symbols, where none of these is defined before.
fn defined_with(
    alloc: Global,
    before: Names,
    symbols: &[Symbol],
) -> Result<Option<Names>, AllocError>
    ensures { IfOk result (λ defined. defined ≡ defined_with before symbols.now) }
{
    let mut defined = before;
    let mut rest = symbols;
    'symbols: while let [symbol, others @ ..] = rest {
        if !defined.add(alloc, &symbol.name)? {
            return Ok(None);
        }
        rest = others;
    }
    Ok(Some(defined))
}

/// Adds what an instruction calls.
fn add_call(alloc: Global, wanted: &mut Names, instruction: &Instruction) -> Result<(), AllocError>
    ensures { OnOk result (wanted.new ≡ wanted_by wanted.old instruction.now) }
{
    if let Instruction::Call(name) = instruction {
        wanted.add(alloc, name)?;
    }
    Ok(())
}

/// Adds what some code calls.
fn add_calls(alloc: Global, wanted: &mut Names, code: &[Instruction]) -> Result<(), AllocError>
    ensures { OnOk result (wanted.new ≡ fold wanted_by wanted.old code.now) }
{
    let mut rest = code;
    'code: while let [instruction, others @ ..] = rest {
        add_call(alloc, wanted, instruction)?;
        rest = others;
    }
    Ok(())
}

/// Adds what some symbols call.
fn add_wanted(alloc: Global, wanted: &mut Names, symbols: &[Symbol]) -> Result<(), AllocError>
    ensures { OnOk result (wanted.new ≡ wanted_with wanted.old symbols.now) }
{
    let mut rest = symbols;
    'symbols: while let [symbol, others @ ..] = rest {
        add_calls(alloc, wanted, symbol.code.as_slice())?;
        rest = others;
    }
    Ok(())
}

/// Appends copies of some things.
fn append_copies<T: TryCopy>(
    alloc: Global,
    things: &mut Many<T>,
    more: &[T],
) -> Result<(), AllocError>
    ensures { OnOk result (things.new ≡ things.old ++ more.now) }
{
    'copied: for thing in more {
        things.push(thing.copy(alloc)?)?;
    }
    Ok(())
}

impl Program {
    /// The program of no objects.
    pub(crate) fn new(alloc: Global) -> Result<Self, AllocError>
        ensures { IfOk result (λ program. program ≡ empty_program) }
    {
        let main = Bytes::from_slice(alloc, b"main")?;
        let mut wanted = Names::new(alloc);
        wanted.add(alloc, &main)?;
        Ok(Program {
            symbols: Many::new(alloc),
            debug: Many::new(alloc),
            defined: Names::new(alloc),
            wanted,
        })
    }

    /// Whether a symbol is wanted and not defined.
    fn is_undefined(&self, name: &Bytes) -> bool
        ensures { result ≡ is_undefined self.now name.now }
    {
        self.wanted.contains(name) && !self.defined.contains(name)
    }

    /// Whether an object defines a symbol that is undefined.
    fn is_asked(&self, object: &Object) -> bool
        ensures { result ≡ is_asked self.now object.now }
    {
        object
            .symbols
            .as_slice()
            .iter()
            .any(|symbol| self.is_undefined(&symbol.name))
    }

    /// With an object.
    pub(crate) fn with_object(self, alloc: Global, object: &Object) -> Result<Linked, AllocError>
        ensures { IfOk result (λ linked. linked ≡ with_object self object.now) }
    {
        let Program {
            mut symbols,
            mut debug,
            defined,
            mut wanted,
        } = self;
        let Some(defined) = defined_with(alloc, defined, object.symbols.as_slice())? else {
            return Ok(Err(LinkFault::DuplicateSymbol));
        };
        append_copies(alloc, &mut symbols, object.symbols.as_slice())?;
        append_copies(alloc, &mut debug, object.debug.as_slice())?;
        add_wanted(alloc, &mut wanted, object.symbols.as_slice())?;
        Ok(Ok(Program {
            symbols,
            debug,
            defined,
            wanted,
        }))
    }

    /// With an object, where it defines a symbol that is undefined.
    pub(crate) fn with_asked(self, alloc: Global, object: &Object) -> Result<Linked, AllocError>
        ensures { IfOk result (λ linked. linked ≡ with_asked self object.now) }
    {
        if !self.is_asked(object) {
            return Ok(Ok(self));
        }
        self.with_object(alloc, object)
    }

    /// The program, where no symbol is undefined at the end.
    pub(crate) fn all_defined(self) -> Linked
        ensures { result ≡ all_defined self }
    {
        if !self.wanted.are_among(&self.defined) {
            return Err(LinkFault::UndefinedSymbol);
        }
        Ok(self)
    }
}
