//! Tests over several modules.
pub(crate) mod out_of_memory;
