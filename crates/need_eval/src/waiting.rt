//! What a walker knows of the job that it waits for.

ghost use Rattle.std.specs.Prelude.{◌≡◌, ◌≤◌, length};
ghost use Rattle.std.specs.Ordering.{eq_by_cmp};
ghost use Rattle.std.specs.Prelude.{IsTrue};
ghost use Rattle.object_name.specs.declared.kind.Kind.TheVariants as kinds;
ghost use Rattle.object_name.specs.Name.{name_cmp, name_of};

use crate::prepared::Prepared;
use object_name::Name;

/// A job, and the name under which its outputs are noted. The text of the job's thunk has this name, and is a thunk's.
#[derive(Debug, Drop)]
pub struct Waiting {
    pub prepared: Prepared,
    pub note_name: Name,
    ghost named: { IsTrue (eq_by_cmp name_cmp note_name (name_of prepared.text)) },
    ghost thunk: { note_name.kind ≡ kinds.Thunk },
    ghost some_output: { 1 ≤ length prepared.job.outputs },
    ghost few_outputs: { length prepared.job.outputs ≤ 64 },
}
