//! Files, the standard streams and the clock.
pub(crate) mod fused;
pub(crate) mod messages;
pub(crate) mod progress;
pub(crate) mod prompt_stream;
pub(crate) mod read_files;
pub(crate) mod sources;
pub(crate) mod terminal;
