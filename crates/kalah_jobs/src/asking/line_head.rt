//! The first bytes of a line.
ghost use Rattle.std.specs.Prelude.{◌≡◌, ◌∷◌, [], ◌++◌, length, take};
ghost use Rattle.kalah_jobs.specs.Asking.{kept_bytes};

use crate::limits::MOST_LINE_BYTES;
use std::marker::Model;

/// The number of bytes of a line that are kept: one more than the longest allowed line has with its CR.
const KEPT_BYTES: usize = MOST_LINE_BYTES + 2;

/// The first bytes of a line: enough to determine its entry, however long it is. Contracts see it as these bytes.
#[derive(Drop)]
pub(crate) struct LineHead {
    bytes: [u8; KEPT_BYTES],
    len: usize,
}

impl Model for LineHead {
    ghost use Rattle.std.specs.Prelude.{◌≡◌, ◌≤◌, ℕ, List, length, take};
    ghost use Rattle.kalah_jobs.specs.declared.asking.line_head.TheConstants.{KEPT_BYTES};

    ghost Value = { List ℕ };

    ghost view = { λ h. take h.len h.bytes };

    ghost invariant = { λ h. (length h.bytes ≡ KEPT_BYTES) × (h.len ≤ KEPT_BYTES) };
}

impl LineHead {
    /// Makes an empty head.
    pub(crate) fn new() -> LineHead
        ensures { result ≡ [] }
    {
        LineHead {
            bytes: [0; KEPT_BYTES],
            len: 0,
        }
    }

    /// Appends one byte of the line, which is kept if there is room.
    pub(crate) fn push(&mut self, byte: u8)
        ensures { self.new ≡ take kept_bytes (self.old ++ byte ∷ []) }
    {
        if self.len < KEPT_BYTES {
            self.bytes[self.len] = byte;
            self.len += 1;
        }
    }

    /// Returns the bytes.
    pub(crate) fn bytes(&self) -> &[u8]
        ensures { result.now ≡ self.now }
    {
        &self.bytes[..self.len]
    }
}
