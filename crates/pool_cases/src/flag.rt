//! Flags that threads share.

use std::alloc::{AllocError, Global};
use std::sync::Arc;
use std::sync::atomic::{AtomicBool, Ordering};
use std::thread::yield_now;

/// How often a flag is looked at before one goes on without it.
const MOST_LOOKS: u32 = 50_000_000;

/// A flag that threads share: it is raised once and for all.
#[derive(Drop)]
pub struct Flag {
    raised: Arc<AtomicBool>,
}

impl Flag {
    pub fn new(alloc: Global) -> Result<Flag, AllocError> {
        let raised = Arc::new(alloc, AtomicBool::new(false))?;
        Ok(Flag { raised })
    }

    /// The same flag for another holder.
    pub fn share(&self) -> Result<Flag, AllocError> {
        let raised = Arc::try_clone(&self.raised)?;
        Ok(Flag { raised })
    }

    pub fn raise(&self) {
        self.raised.store(true, Ordering::SeqCst);
    }

    pub fn is_raised(&self) -> bool {
        self.raised.load(Ordering::SeqCst)
    }

    /// Waits until it is raised. False where it wasn't, however often one looked.
    pub fn is_raised_in_time(&self) -> bool {
        'looks: for _ in 0..MOST_LOOKS {
            if self.is_raised() {
                return true;
            }
            yield_now();
        }
        false
    }
}
