//! How the program ends: its exit status, and what it writes to standard error.
pub(crate) mod failure;
pub(crate) mod status;
pub(crate) mod tips;
