//! Tests over several modules, and what they share.
mod out_of_memory;

use std::alloc::Global;
use std::test::Fail;

/// Makes a request that is refused only if none before it was.
pub(crate) fn mark(alloc: Global, place: &'static str) -> Result<(), Fail> {
    match Box::new(alloc, 0u8) {
        Ok(_) => Ok(()),
        Err(_) => Err(Fail::new(place)),
    }
}
