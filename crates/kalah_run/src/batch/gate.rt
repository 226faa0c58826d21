//! The gate: an observer that workers call before each job and after its outcome is sent.
ghost use Rattle.std.specs.Prelude.{◌≡◌, ℕ, Bool, true};

/// A worker calls `before` when it has drawn a job and has not started it, and `after` once the outcome of that job is
/// sent. Many workers may call at once.
pub trait Gate: Sync {
    /// Whether the gate knows that a worker has this job. `before` ensures it, and the call that solves the job requires it. By default it
    /// is true.
    ghost knows: { Self → ℕ → Bool } = { λ _ _. true };

    /// A worker has drawn job `job`, and has not started it.
    fn before(&self, job: u32)
        ensures known { knows self.now job ≡ true };

    /// The outcome of job `job` is sent.
    fn after(&self, job: u32);
}

/// The gate that does nothing.
#[derive(Clone, Copy, Debug)]
pub struct OpenGate;

impl Gate for OpenGate {
    fn before(&self, _job: u32) {}

    fn after(&self, _job: u32) {}
}
