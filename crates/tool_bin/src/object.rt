//! Objects and their texts.

ghost use Rattle.std.specs.Prelude.{◌≡◌, ◌++◌, ◌∷◌, [], IfOk, OnOk, decimal};
ghost use Rattle.std.specs.List.{flat_map};
ghost use Rattle.tool_bin.specs.Instruction.{instruction_text};
ghost use Rattle.tool_bin.specs.Object.{line, symbol_text, debug_text, object_text};

use crate::instruction::{Instruction, write_instruction};
use object_name::{Bytes, Many, TryCopy, write_number};
use std::alloc::{AllocError, Global};

/// The first line of an object.
pub const OBJECT_HEAD: &[u8] = b"gg-obj 1";

/// The first line of an executable.
pub const EXECUTABLE_HEAD: &[u8] = b"gg-exe 1";

/// A symbol: a name and the code that it stands for.
#[derive(Debug, Drop)]
pub struct Symbol {
    pub name: Bytes,
    pub code: Many<Instruction>,
}

/// A debug line: the number of a source line, for the symbol that it made.
#[derive(Debug, Drop)]
pub struct DebugLine {
    pub name: Bytes,
    pub number: u64,
}

/// An object, which the assembler makes of a text. An executable is one too, with another first line.
#[derive(Debug, Drop)]
pub struct Object {
    pub symbols: Many<Symbol>,
    pub debug: Many<DebugLine>,
}

impl TryCopy for Symbol {
    fn copy(&self, alloc: Global) -> Result<Self, AllocError> {
        let name = self.name.copy(alloc)?;
        let code = self.code.copy(alloc)?;
        Ok(Symbol { name, code })
    }
}

impl TryCopy for DebugLine {
    fn copy(&self, alloc: Global) -> Result<Self, AllocError> {
        let name = self.name.copy(alloc)?;
        Ok(DebugLine {
            name,
            number: self.number,
        })
    }
}

/// Appends the lines of some instructions.
pub(crate) fn write_code(code: &[Instruction], out: &mut Bytes) -> Result<(), AllocError>
    ensures { OnOk result (out.new ≡ out.old ++ flat_map (λ instruction. line (instruction_text instruction)) code.now) }
{
    'code: for instruction in code {
        write_instruction(instruction, out)?;
        out.append(b"\n")?;
    }
    Ok(())
}

/// Appends a line of a word, a name and a number.
fn write_numbered(kind: &[u8], name: &Bytes, number: u64, out: &mut Bytes) -> Result<(), AllocError>
    ensures { OnOk result (out.new ≡ out.old ++ line (kind.now ++ (name.now ++ 32 ∷ decimal number))) }
{
    out.append(kind)?;
    out.append(name.as_slice())?;
    out.append(b" ")?;
    write_number(number, out)?;
    out.append(b"\n")
}

/// Appends `sym NAME COUNT`, and so many instructions.
fn write_symbol(symbol: &Symbol, out: &mut Bytes) -> Result<(), AllocError>
    ensures { OnOk result (out.new ≡ out.old ++ symbol_text symbol.now) }
{
    write_numbered(b"sym ", &symbol.name, symbol.code.len() as u64, out)?;
    write_code(symbol.code.as_slice(), out)
}

/// Appends the text of some symbols.
fn write_symbols(symbols: &[Symbol], out: &mut Bytes) -> Result<(), AllocError>
    ensures { OnOk result (out.new ≡ out.old ++ flat_map symbol_text symbols.now) }
{
    'symbols: for symbol in symbols {
        write_symbol(symbol, out)?;
    }
    Ok(())
}

/// Appends some debug lines.
fn write_debug(debug: &[DebugLine], out: &mut Bytes) -> Result<(), AllocError>
    ensures { OnOk result (out.new ≡ out.old ++ flat_map debug_text debug.now) }
{
    'debug: for line in debug {
        write_numbered(b"dbg ", &line.name, line.number, out)?;
    }
    Ok(())
}

/// The text of an object, or of an executable, by its first line.
#[tactic(auto, unfolding(crate::specs::Object::object_text))]
pub fn write_object(alloc: Global, head: &[u8], object: &Object) -> Result<Bytes, AllocError>
    ensures { IfOk result (λ text. text ≡ object_text head.now object.now) }
{
    let mut out = Bytes::new(alloc);
    out.append(head)?;
    out.append(b"\n")?;
    write_symbols(object.symbols.as_slice(), &mut out)?;
    write_debug(object.debug.as_slice(), &mut out)?;
    out.append(b"end\n")?;
    Ok(out)
}
