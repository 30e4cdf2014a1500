//! Numbers of events.

ghost use Rattle.std.specs.Prelude.{◌≡◌};
ghost use Rattle.force_pool.specs.Counting.{starts_of, firsts_of, losses_of};

use force_core::Event;

/// How many leases were started.
pub(crate) fn starts_in(events: &[Event]) -> u64
    ensures { result ≡ starts_of events.now }
{
    events
        .iter()
        .filter(|event| matches!(event, Event::Started { .. }))
        .count() as u64
}

/// How many jobs got a first outcome.
pub(crate) fn firsts_in(events: &[Event]) -> u64
    ensures { result ≡ firsts_of events.now }
{
    events
        .iter()
        .filter(|event| matches!(event, Event::First { .. }))
        .count() as u64
}

/// How many leases were lost.
pub(crate) fn losses_in(events: &[Event]) -> u64
    ensures { result ≡ losses_of events.now }
{
    events
        .iter()
        .filter(|event| matches!(event, Event::Lost { .. }))
        .count() as u64
}
