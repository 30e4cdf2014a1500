//! An object as it is put together.

ghost use Rattle.std.specs.Prelude.{◌≡◌, IfOk};
ghost use Rattle.tool_bin.specs.ObjectBuilder.{empty_builder, all_symbols, with_label, symbol_with, with_instruction, with_debug, object_in};

use crate::instruction::Instruction;
use crate::object::{DebugLine, Object, Symbol};
use object_name::{Bytes, Many};
use std::alloc::{AllocError, Global};

/// The symbols before the last label, the one that it began, and the debug lines.
#[derive(Debug, Drop)]
pub(crate) struct ObjectBuilder {
    pub(crate) done: Many<Symbol>,
    pub(crate) last: Option<Symbol>,
    pub(crate) debug: Many<DebugLine>,
}

/// All symbols so far.
fn all_symbols(done: Many<Symbol>, last: Option<Symbol>) -> Result<Many<Symbol>, AllocError>
    ensures { IfOk result (λ symbols. symbols ≡ all_symbols done last) }
{
    let mut symbols = done;
    if let Some(symbol) = last {
        symbols.push(symbol)?;
    }
    Ok(symbols)
}

/// A symbol with an instruction at its end.
fn symbol_with(instruction: Instruction, last: Option<Symbol>) -> Result<Option<Symbol>, AllocError>
    ensures { IfOk result (λ symbol. symbol ≡ symbol_with instruction last) }
{
    let Some(symbol) = last else {
        return Ok(None);
    };
    let Symbol { name, mut code } = symbol;
    code.push(instruction)?;
    Ok(Some(Symbol { name, code }))
}

impl ObjectBuilder {
    /// The builder of an object without symbols.
    pub(crate) fn new(alloc: Global) -> Self
        ensures { result ≡ empty_builder }
    {
        ObjectBuilder {
            done: Many::new(alloc),
            last: None,
            debug: Many::new(alloc),
        }
    }

    /// With a label, which begins a symbol.
    pub(crate) fn with_label(self, alloc: Global, name: &[u8]) -> Result<Self, AllocError>
        ensures { IfOk result (λ made. made ≡ with_label name.now self) }
    {
        let ObjectBuilder { done, last, debug } = self;
        let done = all_symbols(done, last)?;
        let symbol = Symbol {
            name: Bytes::from_slice(alloc, name)?,
            code: Many::new(alloc),
        };
        Ok(ObjectBuilder {
            done,
            last: Some(symbol),
            debug,
        })
    }

    /// With an instruction at the end of the last symbol.
    pub(crate) fn with_instruction(self, instruction: Instruction) -> Result<Self, AllocError>
        ensures { IfOk result (λ made. made ≡ with_instruction instruction self) }
    {
        let ObjectBuilder { done, last, debug } = self;
        let last = symbol_with(instruction, last)?;
        Ok(ObjectBuilder { done, last, debug })
    }

    /// With one more debug line.
    pub(crate) fn with_debug(self, name: Bytes, number: u64) -> Result<Self, AllocError>
        ensures { IfOk result (λ made. made ≡ with_debug name number self) }
    {
        let ObjectBuilder {
            done,
            last,
            mut debug,
        } = self;
        debug.push(DebugLine { name, number })?;
        Ok(ObjectBuilder { done, last, debug })
    }

    /// The object that was put together.
    pub(crate) fn into_object(self) -> Result<Object, AllocError>
        ensures { IfOk result (λ object. object ≡ object_in self) }
    {
        let ObjectBuilder { done, last, debug } = self;
        let symbols = all_symbols(done, last)?;
        Ok(Object { symbols, debug })
    }
}
