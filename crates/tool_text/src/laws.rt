//! Laws of the cards that no single call shows.

ghost use Rattle.std.specs.Prelude.{◌<◌, ◌^◌, ℕ};
ghost use Rattle.object_name.specs.Name.{ObjectName};
ghost use Rattle.thunk_codec.specs.declared.job.Job.{Job};
ghost use Rattle.thunk_codec.specs.Outcome.{HasForm};
ghost use Rattle.thunk_codec.specs.declared.reference.Ref.TheVariants.{Value, Out};
ghost use Rattle.thunk_codec.specs.Reference.{IsRef};
ghost use Rattle.thunk_codec.specs.Thunk.{IsThunk};
ghost use Rattle.tool_text.specs.declared.fib_thunks.Asked.{Asked};
ghost use Rattle.tool_text.specs.Add.{add_outcome};
ghost use Rattle.tool_text.specs.Cat.{cat_outcome};
ghost use Rattle.tool_text.specs.Cpp.{cpp_outcome};
ghost use Rattle.tool_text.specs.Fail.{fail_outcome};
ghost use Rattle.tool_text.specs.Fib.{fib_outcome, fib_thunk, sum_thunk};

/// What a card gives has the form that its job wants: as many outputs as the job names, or a status.
pub fn outcomes_have_form()
    ensures cat { (job : Job) → HasForm job (cat_outcome job) }
    ensures fail { (job : Job) → HasForm job (fail_outcome job) }
    ensures add { (job : Job) → HasForm job (add_outcome job) }
    ensures fib { (job : Job) → HasForm job (fib_outcome job) }
    ensures cpp { (job : Job) → HasForm job (cpp_outcome job) }
{}

/// What `fib` gives for a number over 1 are texts of thunks, where its names are those of objects of these kinds.
pub fn fib_gives_thunks()
    ensures smaller { (asked : Asked) (n : ℕ) → IsRef (Value asked.function) → IsRef (Value asked.add) → n < 2 ^ 64 → IsThunk (fib_thunk asked n) }
    ensures sum { (asked : Asked) (left : ObjectName) (right : ObjectName) → IsRef (Value asked.add) → IsRef (Out left 0) → IsRef (Out right 0)
        → IsThunk (sum_thunk asked left right) }
{}
