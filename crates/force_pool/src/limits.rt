//! The limits of one call.

ghost use Rattle.std.specs.Prelude.{ℕ};

use std::marker::Brand;
use std::sync::ledger::Ledger;

/// The ledger of the starts of one call, which also names the call's limits: how many workers it has, how often a failed call of a
/// link is tried again, and how many leases of one job may be out.
pub(crate) trait Limits: Ledger {
    ghost workers: { ℕ };

    ghost retries: { ℕ };

    ghost copies: { ℕ };
}

impl Limits for Brand {
    ghost workers = { 0 };

    ghost retries = { 0 };

    ghost copies = { 0 };
}
