//! Outcomes, and the collector that puts them into the order of their lines.
pub(crate) mod arrivals;
pub(crate) mod collector;
pub(crate) mod found;
pub(crate) mod laws;
pub(crate) mod outcome;
pub(crate) mod refusal;
