//! What all threads of a call share.

use crate::desk::Desk;
use crate::limits::Limits;
use std::sync::ledger::Ledger;
use std::sync::{Condvar, Mutex};
use thunk_codec::Function;

/// The desk under its lock, and the signal that something on it has changed.
pub(crate) struct Hall<F: Function, S: Limits, P: Ledger, O: Ledger> {
    pub(crate) desk: Mutex<Desk<F, S, P, O>>,
    pub(crate) moved: Condvar,
}
