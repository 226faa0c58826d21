//! Answers the lines of position files by workers in parallel, and writes the answers in order.
#![tactic(auto)]

mod batch;
mod desk;
mod laws;
mod limits;
mod queue;
#[cfg(test)]
mod tests;

pub use batch::gate::{Gate, OpenGate};
pub use batch::request::{BatchRequest, OnFailedWrite};
pub use batch::run_fault::RunFault;
pub use batch::watch::{NoWatch, Watch};
pub use batch::{answer_batch, solve_batch};
pub use desk::pass::Pass;
pub use desk::{ClosedDesk, Desk};
pub use kalah_jobs::Tally;
pub use laws::{desk_is_lawful, no_line_is_answered, queue_is_lawful};
pub use limits::{MOST_CAPACITY, MOST_WORKERS, limits_of_runs};
pub use queue::passes::{GetPass, PutPass};
pub use queue::{ClosedQueue, ResultsQueue};
