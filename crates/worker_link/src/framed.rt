//! Links over frames of bytes.

ghost use Rattle.worker_link.specs.Stream.{Framed};

/// A link over frames of bytes.
pub trait Frames {
    /// What it has taken, has to read and has written, and how often its source and its sink have failed.
    ghost framed: { Self → Framed };
}
