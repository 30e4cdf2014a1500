//! Whether names are the same.

ghost use Rattle.std.specs.Prelude.{◌≡◌};
ghost use Rattle.dep_tracker.specs.Known.{same_name};

use object_name::Name;

/// Whether two names are the same.
#[tactic(auto, using(crate::proofs::NamesAreCompared::equality_ties))]
pub(crate) fn same_name(a: &Name, b: &Name) -> bool
    ensures { result ≡ same_name a.now b.now }
{
    a == b
}
