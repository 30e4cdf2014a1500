//! Thunks: a function, its arguments, environment and inputs, and the names of its outputs.

ghost use Rattle.std.specs.Prelude.{◌≡◌, IfOk};
ghost use Rattle.thunk_codec.specs.Thunk.{IsThunk};
ghost use Rattle.thunk_codec.specs.Job.{resolved_size};

use crate::job_size::{args_size, envs_size, inputs_size, outputs_size};
use crate::path::Path;
use crate::reference::Ref;
use object_name::{Bytes, Many, TryCopy};
use std::alloc::{AllocError, Global};
use std::marker::Model;

/// A computation that is named by its content. Contracts see its parts; its type keeps that they have a text.
#[derive(Debug, Drop)]
pub struct Thunk {
    function: Ref,
    args: Many<Bytes>,
    envs: Many<(Bytes, Bytes)>,
    inputs: Many<(Path, Ref)>,
    outputs: Many<Path>,
}

impl Model for Thunk {
    ghost use Rattle.thunk_codec.specs.Thunk.{Parts, IsThunk};

    ghost Value = { Parts };

    ghost view = { λ t. record { function = t.function; args = t.args; envs = t.envs; inputs = t.inputs; outputs = t.outputs } };

    ghost invariant = { λ t. IsThunk (record { function = t.function; args = t.args; envs = t.envs; inputs = t.inputs; outputs = t.outputs }) };
}

impl Thunk {
    /// The thunk with these parts.
    pub(crate) fn from_parts(
        function: Ref,
        args: Many<Bytes>,
        envs: Many<(Bytes, Bytes)>,
        inputs: Many<(Path, Ref)>,
        outputs: Many<Path>,
    ) -> Self
        requires { IsThunk (record { function = function; args = args; envs = envs; inputs = inputs; outputs = outputs }) }
        ensures { result ≡ record { function = function; args = args; envs = envs; inputs = inputs; outputs = outputs } }
    {
        Thunk {
            function,
            args,
            envs,
            inputs,
            outputs,
        }
    }

    /// A copy, with this function and these inputs.
    pub(crate) fn with_refs(
        &self,
        alloc: Global,
        function: Ref,
        inputs: Many<(Path, Ref)>,
    ) -> Result<Self, AllocError>
        requires { IsThunk self.now → IsThunk (record self.now { function = function; inputs = inputs }) }
        ensures { IfOk result (λ t. t ≡ record self.now { function = function; inputs = inputs }) }
    {
        let args = self.args.copy(alloc)?;
        let envs = self.envs.copy(alloc)?;
        let outputs = self.outputs.copy(alloc)?;
        Ok(Thunk {
            function,
            args,
            envs,
            inputs,
            outputs,
        })
    }

    pub fn function(&self) -> &Ref
        ensures function { result.now ≡ self.now.function }
        ensures rules { IsThunk self.now }
    {
        &self.function
    }

    pub fn args(&self) -> &[Bytes]
        ensures { result.now ≡ self.now.args }
    {
        self.args.as_slice()
    }

    /// The environment: keys and values, the keys in rising order.
    pub fn envs(&self) -> &[(Bytes, Bytes)]
        ensures { result.now ≡ self.now.envs }
    {
        self.envs.as_slice()
    }

    /// The inputs: their paths, in rising order, and what stands there.
    pub fn inputs(&self) -> &[(Path, Ref)]
        ensures { result.now ≡ self.now.inputs }
    {
        self.inputs.as_slice()
    }

    pub fn outputs(&self) -> &[Path]
        ensures { result.now ≡ self.now.outputs }
    {
        self.outputs.as_slice()
    }

    /// The length of the encoding of this thunk's job where its references are all values, by the sizes in their names.
    pub fn resolved_size(&self) -> u64
        ensures { result ≡ resolved_size self.now }
    {
        let function = u64::from(self.function.name().size());
        let args = args_size(self.args.as_slice());
        let envs = envs_size(self.envs.as_slice());
        let inputs = inputs_size(self.inputs.as_slice());
        let outputs = outputs_size(self.outputs.as_slice());
        20 + function + args + envs + inputs + outputs
    }
}

impl TryCopy for Thunk {
    fn copy(&self, alloc: Global) -> Result<Self, AllocError> {
        let args = self.args.copy(alloc)?;
        let envs = self.envs.copy(alloc)?;
        let inputs = self.inputs.copy(alloc)?;
        let outputs = self.outputs.copy(alloc)?;
        Ok(Thunk {
            function: self.function,
            args,
            envs,
            inputs,
            outputs,
        })
    }
}
