//! Why forcing over links isn't done.

use crate::fault::TopFault;
use job_wire::Answer;
use object_name::Name;

/// Why forcing over links isn't done.
#[derive(Debug, Drop)]
pub(crate) enum LinkedFault {
    /// A fault that any command line may end with.
    Top(TopFault),
    /// Two outcomes of one job have answers that differ. The name is that of the job's resolved text.
    Differs {
        resolved: Name,
        first: Answer,
        second: Answer,
    },
    /// Each link failed more often than was tried again.
    LinksLost,
}
