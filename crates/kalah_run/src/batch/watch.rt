//! The watch: an observer of the progress of a batch.
ghost use Rattle.std.specs.Prelude.{◌≡◌, Bool, true};

/// An observer of a batch, called on the calling thread: `on_accepted` after each accepted outcome, once the answers that became ready
/// are written; `on_waiting` before each wait for an outcome. A watch that blocks delays the batch.
pub trait Watch {
    /// Whether the watch knows that the next outcome has not come yet. `on_waiting` ensures it, and the call that waits requires it.
    /// By default it is true.
    ghost is_waiting: { Self → Bool } = { λ _. true };

    /// One more outcome was accepted.
    fn on_accepted(&mut self);

    /// The next outcome has not come yet.
    fn on_waiting(&mut self)
        ensures known { is_waiting self.new ≡ true };
}

/// The watch that does nothing.
#[derive(Clone, Copy, Debug)]
pub struct NoWatch;

impl Watch for NoWatch {
    fn on_accepted(&mut self) {}

    fn on_waiting(&mut self) {}
}
