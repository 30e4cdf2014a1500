//! Why forcing with links gives no values.

use job_wire::Answer;
use need_eval::EvalFault;
use object_name::Name;

/// Why forcing with links gives no values.
#[derive(Debug, Drop)]
pub enum ForceFault {
    /// The evaluation's own fault. `RunFailed` is never among them.
    Eval(EvalFault),
    /// Two outcomes of one job have answers that differ. The name is that of the job's resolved text.
    Differs {
        resolved: Name,
        first: Answer,
        second: Answer,
    },
    /// Each link failed more often than was tried again, and the evaluation waits for a job that has no outcome.
    LinksLost,
    /// Memory was refused.
    Memory,
}
