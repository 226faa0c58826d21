//! What is known of houses: the margins and the seeds that are left open.
pub(crate) mod interval;
pub(crate) mod seed_bounds;
pub(crate) mod window;
