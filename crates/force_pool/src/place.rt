//! Where outputs stand in the book.

/// The place of an output: the number of its job, and which of the job's outputs it is.
#[derive(Clone, Copy, Debug)]
pub(crate) struct Place {
    pub(crate) id: u64,
    pub(crate) index: usize,
}
