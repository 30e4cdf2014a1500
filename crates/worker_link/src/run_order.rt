//! Links that run the jobs themselves.

ghost use Rattle.std.specs.Prelude.{ℕ};
ghost use Rattle.worker_link.specs.Script.{Acting};

/// A link that runs the jobs itself, each once, in the order in which they were sent.
pub trait RunOrder {
    /// How many of the jobs sent were run: so many of the first.
    ghost ran: { Self → ℕ };
}

/// A link that follows a list of actions.
pub trait Scripted {
    /// How many of the jobs sent were run, the actions taken and left, and the reply that is held for the next call.
    ghost acting: { Self → Acting };
}
