//! How a worker's session ends.

/// How a worker's session ends.
#[derive(Clone, Copy, Debug, PartialEq, Eq)]
pub enum WorkerEnd {
    /// A frame said so, or the input ended between frames.
    Ended,
    /// The input ended inside a frame.
    Cut,
    /// A whole frame is that of no message, or is a reply.
    BadFrame {
        /// The place of its first byte in the session.
        at: u64,
    },
    /// A length is over the limit.
    FrameTooLong {
        /// The place of its first byte in the session.
        at: u64,
        /// The length.
        len: u32,
    },
    /// The session has more bytes than are counted.
    TooMuch,
    /// The source failed: its count rose.
    SourceFailed,
    /// The sink failed: its count rose.
    SinkFailed,
    /// The runner failed: its count rose.
    RunFailed,
    /// Memory was refused.
    Memory,
}
