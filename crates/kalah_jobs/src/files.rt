//! Files, and the jobs that their lines make.
pub(crate) mod entry;
pub(crate) mod file_lines;
pub(crate) mod file_text;
pub(crate) mod job;
pub(crate) mod jobs;
pub(crate) mod laws;
pub(crate) mod question;
