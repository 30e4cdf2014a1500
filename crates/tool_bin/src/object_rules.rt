//! Which objects are well-formed.

ghost use Rattle.std.specs.Prelude.{◌≡◌, [], IfOk};
ghost use Rattle.std.specs.List.{list_all};
ghost use Rattle.tool_bin.specs.Object.{is_defined, are_new, names_of, from_named, are_in_order, is_well_formed};

use crate::names::Names;
use crate::object::{DebugLine, Object, Symbol};
use object_name::Bytes;
use std::alloc::{AllocError, Global};
use thunk_codec::is_identifier;

/// Whether a symbol is an identifier with code.
fn is_defined(symbol: &Symbol) -> bool
    ensures { result ≡ is_defined symbol.now }
{
    is_identifier(symbol.name.as_slice()) && !symbol.code.as_slice().is_empty()
}

/// Whether each symbol is an identifier with code.
fn are_defined(symbols: &[Symbol]) -> bool
    ensures { result ≡ list_all is_defined symbols.now }
{
    symbols.iter().all(|symbol| is_defined(symbol))
}

/// Whether no two symbols have one name.
fn are_new(alloc: Global, symbols: &[Symbol]) -> Result<bool, AllocError>
    ensures { IfOk result (λ new. new ≡ are_new [] (names_of symbols.now)) }
{
    let mut seen = Names::new(alloc);
    let mut rest = symbols;
    'symbols: while let [symbol, others @ ..] = rest {
        if !seen.add(alloc, &symbol.name)? {
            return Ok(false);
        }
        rest = others;
    }
    Ok(true)
}

/// The symbols from the one of this name on.
fn from_named<'a>(name: &Bytes, symbols: &'a [Symbol]) -> &'a [Symbol]
    ensures { result.now ≡ from_named name.now symbols.now }
{
    let mut rest = symbols;
    'symbols: while let [symbol, others @ ..] = rest {
        if symbol.name.as_slice() == name.as_slice() {
            return rest;
        }
        rest = others;
    }
    rest
}

/// Whether debug lines stand in the order of the symbols.
fn are_in_order(symbols: &[Symbol], debug: &[DebugLine]) -> bool
    ensures { result ≡ are_in_order symbols.now debug.now }
{
    let mut named = symbols;
    let mut rest = debug;
    'debug: while let [line, others @ ..] = rest {
        named = from_named(&line.name, named);
        if named.is_empty() {
            return false;
        }
        rest = others;
    }
    true
}

/// Whether an object is well-formed: each symbol is an identifier with code, no two have one name, and the debug lines stand in
/// the order of the symbols.
pub(crate) fn is_well_formed(alloc: Global, object: &Object) -> Result<bool, AllocError>
    ensures { IfOk result (λ keeps. keeps ≡ is_well_formed object.now) }
{
    if !are_defined(object.symbols.as_slice()) {
        return Ok(false);
    }
    if !are_new(alloc, object.symbols.as_slice())? {
        return Ok(false);
    }
    Ok(are_in_order(object.symbols.as_slice(), object.debug.as_slice()))
}
