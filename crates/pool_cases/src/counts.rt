//! Numbers of a history.

use force_core::Event;

/// How many events of each kind a history has.
#[derive(Clone, Copy, Default)]
pub struct Counts {
    pub offered: u64,
    pub started: u64,
    pub answered: u64,
    pub lost: u64,
}

impl Counts {
    fn add(&mut self, event: &Event) {
        match event {
            Event::Offered(_) => self.offered = self.offered.saturating_add(1),
            Event::Started { .. } => self.started = self.started.saturating_add(1),
            Event::First { .. } => self.answered = self.answered.saturating_add(1),
            Event::Lost { .. } => self.lost = self.lost.saturating_add(1),
            Event::Closed => {}
        }
    }

    /// The numbers of a history.
    pub fn of(history: &[Event]) -> Counts {
        let mut counts = Counts::default();
        'events: for event in history {
            counts.add(event);
        }
        counts
    }
}
