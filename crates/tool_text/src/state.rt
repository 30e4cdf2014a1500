//! How far preprocessing has come.

ghost use Rattle.std.specs.Prelude.{◌≡◌, ◌≤◌, None, Some, [], OnOk};
ghost use Rattle.tool_text.specs.Views.{macros_of, state_of};
ghost use Rattle.tool_text.specs.Preprocess.{counted, written, with_name};
ghost use Rattle.tool_text.specs.Tries.{Tries};

use crate::cpp_fault::CppFault;
use crate::expansion::expand;
use crate::failure::Failure;
use crate::macros::MacroTable;
use object_name::{Bytes, MAX_SIZE};
use std::alloc::{AllocError, Global};

/// The greatest number of lines that are processed.
const MAX_LINES: u32 = 1_048_576;

/// How far preprocessing has come.
#[derive(Drop)]
pub(crate) struct State {
    /// What identifiers stand for.
    pub macros: MacroTable,
    /// How many lines were processed.
    pub count: u32,
    /// What was written.
    pub out: Bytes,
}

impl State {
    /// Nothing is processed.
    pub(crate) fn new(alloc: Global, macros: MacroTable) -> Self
        ensures { state_of result ≡ record { macros = macros_of macros; count = 0; out = [] } }
    {
        State {
            macros,
            count: 0,
            out: Bytes::new(alloc),
        }
    }

    /// Counts one more line.
    #[tactic(auto, unfolding(crate::specs::Preprocess::counted))]
    pub(crate) fn count_line(&mut self) -> Result<(), CppFault>
        ensures { Tries (λ _. state_of self.new) result (counted (state_of self.old)) }
    {
        if self.count >= MAX_LINES {
            return Err(CppFault::Failed(Failure::TooManyLines));
        }
        self.count += 1;
        Ok(())
    }

    /// Writes a line with its identifiers replaced, and a line feed.
    pub(crate) fn write_line(&mut self, line: &[u8]) -> Result<(), CppFault>
        ensures { Tries (λ _. state_of self.new) result (written line.now (state_of self.old)) }
    {
        if let Err(fault) = expand(&self.macros, line, &mut self.out) {
            return Err(fault);
        }
        self.out.append(b"\n")?;
        if self.out.len() > MAX_SIZE as usize {
            return Err(CppFault::Failed(Failure::OutputTooLong));
        }
        Ok(())
    }

    /// Lets an identifier stand for a text.
    pub(crate) fn define(
        &mut self,
        alloc: Global,
        name: &[u8],
        text: &[u8],
    ) -> Result<(), AllocError>
        ensures { OnOk result (state_of self.new ≡ with_name name.now (Some text.now) (state_of self.old)) }
    {
        self.macros.define(alloc, name, text)
    }

    /// Forgets an identifier.
    pub(crate) fn forget(&mut self, name: &[u8])
        ensures { state_of self.new ≡ with_name name.now None (state_of self.old) }
    {
        self.macros.forget(name);
    }
}
