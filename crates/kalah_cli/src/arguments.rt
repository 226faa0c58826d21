//! What the arguments of a command line are, and the request that they make.
pub(crate) mod command;
pub(crate) mod help;
pub(crate) mod request;
pub(crate) mod subcommands;
