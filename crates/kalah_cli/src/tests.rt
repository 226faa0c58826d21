//! The tests of the whole crate.
mod calling;
