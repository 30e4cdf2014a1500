//! The card `strip`.

ghost use Rattle.std.specs.Prelude.{◌≡◌, IfOk};
ghost use Rattle.tool_bin.specs.Strip.{without_debug, stripped_with, stripped, strip_outcome};

use crate::object::{EXECUTABLE_HEAD, OBJECT_HEAD, Object, write_object};
use crate::object_reading::read_with;
use crate::one_output::{output_outcome, plain_source_of};
use crate::status::{BAD_FORM, NOT_AN_OBJECT};
use object_name::{Bytes, Many};
use std::alloc::{AllocError, Global};
use thunk_codec::{Job, Outcome};

/// An object without its debug lines.
fn without_debug(alloc: Global, object: Object) -> Object
    ensures { result ≡ without_debug object }
{
    Object {
        symbols: object.symbols,
        debug: Many::new(alloc),
    }
}

/// The text of an object without its debug lines, where the source is the text of one with this first line.
fn stripped_with(alloc: Global, head: &[u8], source: &[u8]) -> Result<Option<Bytes>, AllocError>
    ensures { IfOk result (λ text. text ≡ stripped_with head.now source.now) }
{
    let Some(object) = read_with(alloc, head, source)? else {
        return Ok(None);
    };
    let object = without_debug(alloc, object);
    Ok(Some(write_object(alloc, head, &object)?))
}

/// The same, be it an object or an executable.
fn stripped(alloc: Global, source: &[u8]) -> Result<Option<Bytes>, AllocError>
    ensures { IfOk result (λ text. text ≡ stripped source.now) }
{
    if let Some(text) = stripped_with(alloc, OBJECT_HEAD, source)? {
        return Ok(Some(text));
    }
    stripped_with(alloc, EXECUTABLE_HEAD, source)
}

/// The outcome of a job of the card `strip`.
pub fn strip(alloc: Global, job: &Job) -> Result<Outcome, AllocError>
    ensures { IfOk result (λ outcome. outcome ≡ strip_outcome job.now) }
{
    let Some(source) = plain_source_of(job) else {
        return Ok(Outcome::Failed(BAD_FORM));
    };
    let text = stripped(alloc, source)?;
    output_outcome(alloc, NOT_AN_OBJECT, text)
}
