//! Laws of histories.

ghost use Rattle.std.specs.Prelude.{◌≡◌, ◌≤◌, ℕ, List, Some, map};
ghost use Rattle.force_core.specs.declared.event.Event.{Event};
ghost use Rattle.force_core.specs.History.{State, start, replay};
ghost use Rattle.force_core.specs.Counted.{IsCounted, rows_from};
ghost use Rattle.lease_table.specs.Table.{choice};
ghost use Rattle.lease_table.specs.declared.row.Row.{Row};

/// After a legal history each row has the number of leases of its job that were not lost, and the number of the last one.
pub fn rows_are_counted()
    ensures { (workers : ℕ) (retries : ℕ) (copies : ℕ) (es : List Event) (t : State) → 1 ≤ copies → replay workers (start workers retries copies) es ≡ Some t → IsCounted t.table }
{}

/// After a legal history the choice by the rows is the choice by rows that are counted anew from all leases.
pub fn choice_is_from_all_leases()
    ensures { (workers : ℕ) (retries : ℕ) (copies : ℕ) (es : List Event) (t : State) → 1 ≤ copies → replay workers (start workers retries copies) es ≡ Some t
        → choice copies t.table.rows ≡ choice copies (rows_from 0 (map (λ (r : Row). r.answered) t.table.rows) t.table.leases) }
{}
