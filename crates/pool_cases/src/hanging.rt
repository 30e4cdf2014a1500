//! A link that hangs, beside one that doesn't.

use crate::flag::Flag;
use crate::twist_link::Twist;

/// Which of the two links it is.
#[derive(Clone, Copy)]
pub enum Side {
    /// The one that gives so many replies, and hangs then.
    Hangs(u32),
    /// The other one.
    Goes,
}

/// The one link gives no reply from some time on until no more will be sent over the other one, and the other one gives none until
/// the first one hangs.
#[derive(Drop)]
pub struct Hanging {
    pub side: Side,
    /// Whether the one hangs.
    pub hangs: Flag,
    /// Whether no more will be sent over the other.
    pub is_over: Flag,
    /// Whether one of them went on before its time.
    pub missed: Flag,
}

impl Hanging {
    /// Waits until a flag is raised.
    fn wait(&self, flag: &Flag) {
        if !flag.is_raised_in_time() {
            self.missed.raise();
        }
    }
}

impl Twist for Hanging {
    fn receives(&mut self) {
        match self.side {
            Side::Hangs(0) => {
                self.hangs.raise();
                self.wait(&self.is_over);
            }
            Side::Hangs(replies) => self.side = Side::Hangs(replies.saturating_sub(1)),
            Side::Goes => self.wait(&self.hangs),
        }
    }

    fn finished(&mut self) {
        if let Side::Goes = self.side {
            self.is_over.raise();
        }
    }
}
