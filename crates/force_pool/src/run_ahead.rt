//! What the walk asks of whatever is run ahead of it.

ghost use Rattle.std.specs.Prelude.{◌≡◌};
ghost use Rattle.force_pool.specs.Walks.{IsOnlyRead};

use crate::hall::Hall;
use crate::limits::Limits;
use crate::settled::Settled;
use blob_store::Keeper;
use need_eval::Prepared;
use object_name::Many;
use std::alloc::{AllocError, Global};
use std::sync::Wait;
use std::sync::ledger::Ledger;
use thunk_codec::Function;

/// Work that can be run ahead of the evaluation, and that writes nothing.
pub(crate) trait RunAhead: Drop {
    /// Hands out the jobs that are to be offered.
    fn take_jobs(&mut self, alloc: Global) -> Many<Prepared>;

    /// Takes note of what became of them. Those that are left are to be offered again.
    fn settled(&mut self, settled: Settled) -> Result<(), AllocError>;

    /// Whether there may be answers that weren't looked at, where the book has so many first outcomes.
    fn is_behind(&self, firsts: u64) -> bool;

    /// Whether more jobs can be made at once.
    fn has_more(&self) -> bool;

    /// Comes up to what is there now, or a part of the way. The keeper is only read.
    fn come_on<R: Wait, K: Keeper, F: Function, S: Limits, P: Ledger, O: Ledger>(
        &mut self,
        rt: &R,
        alloc: Global,
        keeper: &mut K,
        hall: &Hall<F, S, P, O>,
    ) -> Result<(), AllocError>
        ensures { IsOnlyRead K.tells K.store K.writes K.faults keeper.old keeper.new };
}
