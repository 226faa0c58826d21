//! Errors of a batch.
ghost use Rattle.std.specs.Prelude.{◌≡◌};

use kalah_jobs::JobsFault;
use std::alloc::AllocError;
use thiserror::Error;

/// Why a batch failed: the first of these that holds.
#[derive(Clone, Copy, Debug, PartialEq, Eq, Error)]
pub enum RunFault {
    /// There are more than 256 files.
    #[error("too many files")]
    TooManyFiles,
    /// The files have more than 1,000,000 lines together.
    #[error("too many lines")]
    TooManyLines,
    /// Memory was refused before the first worker began.
    #[error("out of memory")]
    OutOfMemory,
    /// There is a line, and no thread could be started.
    #[error("no worker could be started")]
    NoWorker,
    /// A write or the flush of the output failed.
    #[error("write failed")]
    Write,
}

impl From<AllocError> for RunFault {
    ghost use Rattle.kalah_run.specs.declared.batch.run_fault.RunFault.TheVariants.{OutOfMemory};

    ghost from_gives = { λ _ fault. fault ≡ OutOfMemory };

    fn from(_: AllocError) -> RunFault {
        RunFault::OutOfMemory
    }
}

impl From<JobsFault> for RunFault {
    ghost use Rattle.kalah_run.specs.Batch.Answering.{run_fault_of};

    ghost from_gives = { λ fault run. run ≡ run_fault_of fault };

    fn from(fault: JobsFault) -> RunFault {
        match fault {
            JobsFault::TooManyFiles => RunFault::TooManyFiles,
            JobsFault::TooManyLines => RunFault::TooManyLines,
            JobsFault::OutOfMemory => RunFault::OutOfMemory,
        }
    }
}
