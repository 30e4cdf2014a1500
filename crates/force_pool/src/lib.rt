//! Forcing over links: workers in threads of their own round one book under a lock, and the caller, who evaluates by need.
#![tactic(auto)]

mod ahead;
mod concluding;
mod counting;
mod desk;
mod entered;
mod fault;
mod gate;
mod hall;
mod halt;
mod heard;
mod known;
mod lease;
mod limits;
mod making;
mod objects;
mod offered;
mod outputs;
mod place;
mod pool;
mod ready;
mod report;
mod run_ahead;
mod scoped;
mod settled;
mod slot;
mod tally;
mod walk;
mod worker;
mod worker_end;

pub use fault::ForceFault;
pub use gate::{Gate, GateLink};
pub use pool::force_with_links;
pub use report::{PoolEnd, Report, Setup};
pub use settled::{Settled, settle};
