//! Laws of trackers that no single call shows.

ghost use Rattle.std.specs.Prelude.{◌≡◌, List, [], true, false, fold};
ghost use Rattle.object_name.specs.Name.{ObjectName};
ghost use Rattle.thunk_codec.specs.declared.reference.Ref.{Ref};
ghost use Rattle.dep_tracker.specs.Known.{begun, has_name, same_name};
ghost use Rattle.dep_tracker.specs.Tracked.{Tracked, Call, IsAfter, IsTracked, Follows, AreReady, learn, barred_by, thunk_of};

/// Whatever calls a tracker took, what is unknown and what is ready are so by what is in reach.
pub fn after_any_calls()
    ensures { (roots : List Ref) (calls : List Call) (t : Tracked) → IsAfter roots calls t → IsTracked t }
{}

/// What is known and barred, and with it what is in reach, is given by the roots and the calls.
pub fn calls_are_known()
    ensures known { (roots : List Ref) (calls : List Call) (t : Tracked) → IsAfter roots calls t → t.known ≡ fold learn (begun roots) calls }
    ensures barred { (roots : List Ref) (calls : List Call) (t : Tracked) → IsAfter roots calls t → t.barred ≡ fold barred_by [] calls }
{}

/// The same roots and calls lead to the same, in the same order.
pub fn one_outcome()
    ensures { (roots : List Ref) (calls : List Call) (t : Tracked) (u : Tracked) → IsAfter roots calls t → IsAfter roots calls u → t ≡ u }
{}

/// The thunks that a call isn't about stay unknown, or ready.
pub fn others_stay()
    ensures unknown { (t : Tracked) (call : Call) (after : Tracked) (name : ObjectName) → Follows t call after → same_name name (thunk_of call) ≡ false
        → has_name t.unknown name ≡ true → has_name after.unknown name ≡ true }
    ensures ready { (t : Tracked) (call : Call) (after : Tracked) (name : ObjectName) → Follows t call after → same_name name (thunk_of call) ≡ false
        → AreReady t.known t.barred t.ready → has_name t.ready name ≡ true → has_name after.ready name ≡ true }
{}
