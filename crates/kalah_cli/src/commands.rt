//! What each subcommand does.
pub(crate) mod ask;
pub(crate) mod count;
pub(crate) mod files;
pub(crate) mod game;
pub(crate) mod game_solver;
pub(crate) mod laws;
pub(crate) mod line_command;
pub(crate) mod moves;
pub(crate) mod play;
pub(crate) mod show;
