//! A position file as it was read.
ghost use Rattle.std.specs.Prelude.{◌≡◌};
ghost use Rattle.kalah_jobs.specs.Files.Jobs.{lines_in};

use crate::files::file_lines::count_lines;
use std::marker::Model;

/// A position file: the name by which it is answered, and its bytes.
#[derive(Drop)]
pub struct FileText {
    /// The name, as it stands before each answer line.
    pub name: String,
    /// The bytes, with no restriction.
    pub bytes: Vec<u8>,
}

impl Model for FileText {
    ghost use Rattle.std.specs.Prelude.{string_bytes};
    ghost use Rattle.kalah_jobs.specs.Files.NamedBytes.{NamedBytes};

    ghost Value = { NamedBytes };

    ghost view = { λ f. record { name = string_bytes f.name; bytes = f.bytes.items } };
}

impl FileText {
    /// Returns the number of lines of the file.
    pub fn lines(&self) -> usize
        ensures { result ≡ lines_in self.now }
    {
        count_lines(&self.bytes)
    }
}
