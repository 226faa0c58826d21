//! Reads whole files.
ghost use Rattle.std.specs.Prelude.{◌≡◌, ◌≢◌, ◌<◌, ◌≤◌, ◌∷◌, [], All, IfErr, IfOk, IfSome, IsErrOf, length, map, vec_len};
ghost use Rattle.std.specs.Io.KnownBytes.{Consumes, IsAtEnd};
ghost use Rattle.kalah_jobs.specs.Limits.{most_file_bytes};
ghost use Rattle.kalah_cli.specs.{Exit.Failure.{FailsToRead}, System.Sources.{AreFilesOf, file_named}};

use crate::exit::failure::Failure;
use crate::system::sources::Sources;
use kalah_jobs::{FileText, MOST_FILE_BYTES};
use std::alloc::{AllocError, Global};
use std::io;
use std::io::{ErrorKind, Read};

/// The most bytes that one read asks for.
const CHUNK: usize = 65_536;

/// Why a file was not read.
#[derive(Clone, Copy)]
pub(crate) enum ReadFault {
    /// There is no file of this name.
    Missing,
    /// It is a folder.
    Folder,
    /// The system doesn't permit it.
    Forbidden,
    /// It can't be opened, or a read returned an error, of another kind.
    Unreadable,
    /// It has more bytes than the limit.
    TooLong,
}

// Returns the fault that an error of the system is. If the system lacks memory, the file is unreadable; only the program's own lack of
// memory is out of memory.
fn fault_of(error: &io::Error) -> ReadFault
    ensures { result ≢ ReadFault.TooLong }
{
    match error.kind() {
        ErrorKind::NotFound | ErrorKind::NotADirectory => ReadFault::Missing,
        ErrorKind::IsADirectory => ReadFault::Folder,
        ErrorKind::PermissionDenied => ReadFault::Forbidden,
        _ => ReadFault::Unreadable,
    }
}

// Returns the memory that each read fills. It is on the heap, so that the stack stays small.
fn new_chunk(alloc: Global) -> Result<Vec<u8>, AllocError>
    ensures { IfOk result (λ chunk. 0 < vec_len chunk) }
{
    vec![in alloc; 0; CHUNK]
}

/// Returns all that the reader of the file of this name has left, if that is at most `limit` bytes. It is read until it reports the end,
/// an error, or more bytes than the limit. Fails with the file's fault, or with `OutOfMemory` if the program's memory was refused. Any
/// error counts as the file's, also one of an interrupted call.
pub(crate) fn read_limited<'a, F: Read>(
    alloc: Global,
    reader: &mut F,
    name: &'a str,
    limit: usize,
) -> Result<Vec<u8>, Failure<'a>>
    ensures whole { IfOk result (λ v. Consumes (F.remaining reader.old) (F.remaining reader.new) v.items
        × IsAtEnd (F.remaining reader.new) × (length v.items ≤ limit)) }
    ensures long { IsErrOf result (Failure.Unreadable name.entry ReadFault.TooLong)
        → IfSome (F.remaining reader.old) (λ bytes. limit < length bytes) }
    ensures failure { IfErr result (FailsToRead (name.entry ∷ [])) }
{
    let Ok(mut memory) = new_chunk(alloc) else {
        return Err(Failure::OUT_OF_MEMORY);
    };
    let chunk = memory.as_mut_slice();
    let mut bytes = Vec::new(alloc);
    while bytes.len() <= limit {
        match reader.read(chunk) {
            Ok(0) => return Ok(bytes),
            Ok(n) => {
                let Ok(()) = bytes.extend_from_slice(&chunk[..n]) else {
                    return Err(Failure::OUT_OF_MEMORY);
                };
            }
            Err(error) => return Err(Failure::Unreadable {
                name,
                fault: fault_of(&error),
            }),
        }
    }
    Err(Failure::Unreadable {
        name,
        fault: ReadFault::TooLong,
    })
}

// Returns the file of this name, read whole. One of more than 67,108,864 bytes can't be read.
#[tactic(auto, using(crate::proofs::EndsLemmas::read_whole))]
fn read_file<'a, R: Sources>(rt: &R, alloc: Global, name: &'a str) -> Result<FileText, Failure<'a>>
    ensures named { IfOk result (λ file. file.name ≡ name.now) }
    ensures given { IfOk result (λ file. R.may_give rt.now (file_named name.now) file.bytes) }
    ensures within { IfOk result (λ file. length file.bytes ≤ most_file_bytes) }
    ensures failure { IfErr result (FailsToRead (name.entry ∷ [])) }
{
    let bytes = match rt.open(name) {
        Ok(mut file) => read_limited(alloc, &mut file, name, MOST_FILE_BYTES)?,
        Err(error) => return Err(Failure::Unreadable {
            name,
            fault: fault_of(&error),
        }),
    };
    match String::from_str(alloc, name) {
        Ok(name) => Ok(FileText { name, bytes }),
        Err(_) => Err(Failure::OUT_OF_MEMORY),
    }
}

/// Returns the files of these names, in order, each read whole. Fails at the first that can't be read, or with `OutOfMemory` if memory
/// was refused.
pub(crate) fn read_files<'a, R: Sources>(
    rt: &R,
    alloc: Global,
    names: &[&'a str],
) -> Result<Vec<FileText>, Failure<'a>>
    ensures files { IfOk result (λ files. AreFilesOf (R.may_give rt.now) (map (λ name. name.now) names.now) files.items) }
    ensures within { IfOk result (λ files. All (λ file. length file.bytes ≤ most_file_bytes) files.items) }
    ensures failure { IfErr result (FailsToRead names.now) }
{
    let mut files = Vec::new(alloc);
    for name in names {
        // `?`, written out, as in `run_files`.
        let file = match read_file(rt, alloc, *name) {
            Ok(file) => file,
            Err(failure) => return Err(failure),
        };
        let Ok(()) = files.push(file) else {
            return Err(Failure::OUT_OF_MEMORY);
        };
    }
    Ok(files)
}

#[cfg(test)]
mod tests;
