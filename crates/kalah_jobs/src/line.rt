//! Position lines: how they are read, and their faults.
pub(crate) mod laws;
pub(crate) mod line_fault;
pub(crate) mod reading;
pub(crate) mod side;
