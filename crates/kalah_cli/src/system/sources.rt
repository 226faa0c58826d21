//! What a run reads: files by their names, and the standard input.
ghost use Rattle.std.specs.Prelude.{IfOk, ℕ, List};
ghost use Rattle.kalah_cli.specs.System.Sources.{MayBeLeft, Source, any_bytes, file_named, standard_input};

use std::io::{Input, Read};
use std::rt::Files;
use std::{fs, io};

/// The files and the standard input that a run reads. A contract sees of each source which bytes it may give. Of the system's it sees
/// nothing: there a source may give any. A source may give something else each time.
pub trait Sources {
    type File: Read + Drop;

    type Standard: Read + Drop;

    /// The source may give these bytes, and nothing more, to who reads it whole.
    ghost may_give: { Self → Source → List ℕ → Type 0 };

    /// Opens the file of this name.
    fn open(&self, name: &str) -> io::Result<Self::File>
        ensures { IfOk result (λ file. MayBeLeft (may_give self.now (file_named name.now)) (Self.File.remaining file)) };

    /// Returns a reader of the standard input.
    fn standard_input(&self) -> Self::Standard
        ensures { MayBeLeft (may_give self.now standard_input) (Self.Standard.remaining result) };
}

impl<R: Files + Input> Sources for R {
    type File = R::File;

    type Standard = R::Reader;

    ghost may_give = { λ _. any_bytes };

    fn open(&self, name: &str) -> io::Result<R::File> {
        fs::open(self, name)
    }

    fn standard_input(&self) -> R::Reader {
        self.reader()
    }
}
