//! Groups of lines that a condition begins.

ghost use Rattle.std.specs.Prelude.{◌≡◌, [], OnOk};
ghost use Rattle.tool_text.specs.Views.{groups_of};
ghost use Rattle.tool_text.specs.Preprocess.{State, is_active, begun, turned, ended, closed};
ghost use Rattle.tool_text.specs.Tries.{Tries};

use crate::cpp_fault::CppFault;
use crate::failure::Failure;
use std::alloc::{AllocError, Global};

/// A group of lines.
#[derive(Clone, Copy, Debug, Drop)]
pub struct Group {
    /// Whether what stands around it is active.
    pub around: bool,
    /// Whether it is active itself.
    pub active: bool,
    /// Whether its `else` came.
    pub had_else: bool,
}

/// The open groups of a file, the innermost last.
#[derive(Drop)]
pub struct Groups {
    open: Vec<Group>,
}

impl Groups {
    pub(crate) fn new(alloc: Global) -> Self
        ensures { groups_of result ≡ [] }
    {
        Groups {
            open: Vec::new(alloc),
        }
    }

    /// Whether lines are written and directives have their effect.
    pub(crate) fn is_active(&self) -> bool
        ensures { result ≡ is_active (groups_of self.now) }
    {
        match self.open.last() {
            Some(group) => group.active,
            None => true,
        }
    }

    /// Ends a file: no group may be open.
    pub(crate) fn close(self) -> Result<(), CppFault>
        ensures { (state : State) → Tries (λ _. state) result (closed (groups_of self) state) }
    {
        if !self.open.is_empty() {
            return Err(CppFault::Failed(Failure::BadDirective));
        }
        Ok(())
    }

    /// Begins a group.
    pub(crate) fn begin(&mut self, active: bool) -> Result<(), AllocError>
        ensures { OnOk result (groups_of self.new ≡ begun active (groups_of self.old)) }
    {
        let around = self.is_active();
        self.open.push(Group {
            around,
            active,
            had_else: false,
        })?;
        Ok(())
    }

    /// Turns the innermost group by its `else`.
    pub(crate) fn turn(&mut self, of_form: bool) -> Result<(), CppFault>
        ensures { Tries (λ _. groups_of self.new) result (turned of_form (groups_of self.old)) }
    {
        let Some(group) = self.open.pop() else {
            return Err(CppFault::Failed(Failure::BadDirective));
        };
        if !of_form {
            return Err(CppFault::Failed(Failure::BadDirective));
        }
        if group.had_else {
            return Err(CppFault::Failed(Failure::BadDirective));
        }
        self.open.push(Group {
            around: group.around,
            active: group.around && !group.active,
            had_else: true,
        })?;
        Ok(())
    }

    /// Ends the innermost group.
    pub(crate) fn end(&mut self, of_form: bool) -> Result<(), CppFault>
        ensures { Tries (λ _. groups_of self.new) result (ended of_form (groups_of self.old)) }
    {
        if self.open.pop().is_none() {
            return Err(CppFault::Failed(Failure::BadDirective));
        }
        if !of_form {
            return Err(CppFault::Failed(Failure::BadDirective));
        }
        Ok(())
    }
}
