//! How much is read.
ghost use Rattle.std.specs.Prelude.{◌≡◌};
ghost use Rattle.kalah_jobs.specs.Limits.{most_line_bytes, most_file_bytes, most_files, most_lines};

/// The most bytes of a line, after its CR is dropped.
pub const MOST_LINE_BYTES: usize = 80;

/// The most bytes of a file that a program reads whole.
pub const MOST_FILE_BYTES: usize = 67_108_864;

/// The most files of a batch.
pub const MOST_FILES: usize = 256;

/// The most lines of a batch, over all its files.
pub const MOST_LINES: usize = 1_000_000;

/// The limits of what is read, as numbers. A law over the definitions that contracts cite.
pub fn limits_of_reading()
    ensures line_bytes { most_line_bytes ≡ 80 }
    ensures file_bytes { most_file_bytes ≡ 67108864 }
    ensures files { most_files ≡ 256 }
    ensures lines { most_lines ≡ 1000000 }
{}
