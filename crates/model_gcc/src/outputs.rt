//! Where gcc puts what it makes.

ghost use Rattle.std.specs.Prelude.{◌≡◌, IfOk, IsTrue, unwrap_or};
ghost use Rattle.thunk_codec.specs.Path.{is_path};
ghost use Rattle.model_gcc.specs.Outputs.{suffix_after, with_suffix, file_output, program_output};

use crate::gcc_plan::{GccPlan, Stop};
use build_plan::known_path;
use object_name::{Bytes, TryCopy};
use std::alloc::{AllocError, Global};
use thunk_codec::Path;

/// The suffix of what the stages up to a stop make.
fn suffix_after(stop: Stop) -> &'static [u8]
    ensures { result.now ≡ suffix_after stop }
{
    match stop {
        Stop::Preprocess => b".i",
        Stop::Compile => b".s",
        Stop::Assemble => b".o",
        Stop::Link => b".o",
    }
}

/// A component with another suffix of two bytes.
fn with_suffix(alloc: Global, suffix: &[u8], component: &[u8]) -> Result<Bytes, AllocError>
    ensures { IfOk result (λ text. text ≡ with_suffix suffix.now component.now) }
{
    let stem = &component[..component.len().saturating_sub(2)];
    let mut text = Bytes::from_slice(alloc, stem)?;
    text.append(suffix)?;
    Ok(text)
}

/// What `-o` names, or else a text that is a path.
fn output_or(alloc: Global, output: &Option<Path>, text: &[u8]) -> Result<Path, AllocError>
    requires { IsTrue (is_path text.now) }
    ensures { IfOk result (λ path. path ≡ unwrap_or output.now text.now) }
{
    match output {
        Some(path) => path.copy(alloc),
        None => known_path(alloc, text),
    }
}

/// Where a command with a stop puts what is made of a file.
pub(crate) fn file_output(alloc: Global, plan: &GccPlan, path: &Path) -> Result<Path, AllocError>
    requires { IsTrue (is_path path.now) }
    ensures { IfOk result (λ output. output ≡ file_output plan.now path.now) }
{
    let text = with_suffix(alloc, suffix_after(plan.stop), path.last())?;
    output_or(alloc, &plan.output, text.as_slice())
}

/// Where a link puts the program.
pub(crate) fn program_output(alloc: Global, plan: &GccPlan) -> Result<Path, AllocError>
    ensures { IfOk result (λ output. output ≡ program_output plan.now) }
{
    output_or(alloc, &plan.output, b"a.out")
}
