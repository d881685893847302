ghost use Rattle.std.specs.Prelude.{◌≡◌, ◌+◌, ◌++◌, ◌≤◌, [], take, None, Some, IfOk, IfSome, MatchResult, vec_len};
ghost use Rattle.std.specs.IoError.{error_kind};
ghost use Rattle.lucy_io.specs.Fetched as Spec;
ghost use Rattle.lucy_io.specs.Fetched.{IsReadUpTo};
ghost use Rattle.lucy_io.specs.Inputs.{entries_of};
ghost use Rattle.lucy_io.specs.Noted.{noted_all};

use crate::noting::{Noted, note};
use crate::{Ending, FetchError, Inputs};
use std::alloc::Global;
use std::fs::File;
use std::io;
use std::io::Read;
use std::rt::Files;

/// Inputs that are files, named by their paths. A file that is not there is `None`; one that cannot be read, as a folder, is
/// `Failed`. What a file holds is known to no proof.
#[derive(Drop)]
pub struct FileInputs<R: Files + Drop> {
    rt: R,
    journal: Vec<Noted>,
}

impl<R: Files + Drop> FileInputs<R> {
    /// The files that the runtime `rt` opens, with an empty journal.
    pub fn new(rt: R, alloc: Global) -> FileInputs<R>
        ensures { noted_all result.journal.items ≡ [] }
    {
        FileInputs {
            rt,
            journal: Vec::new(alloc),
        }
    }
}

// The first bytes of what a reader has left, one more than the most.
fn read_front<R: Read + Drop>(reader: R, alloc: Global, most: usize) -> io::Result<Vec<u8>>
    ensures bound { IfOk result (λ bytes. vec_len bytes ≤ most + 1) }
    ensures bytes { IfOk result (λ bytes. IfSome (R.remaining reader) (λ left. bytes.items ≡ take (most + 1) left)) }
{
    let limit = most.saturating_add(1);
    let mut bytes = Vec::new(alloc);
    reader.take(limit as u64).read_to_end(&mut bytes)?;
    bytes.truncate(limit);
    Ok(bytes)
}

// What a fetch answers of an input that did not open.
fn unopened(kind: io::ErrorKind) -> Result<Option<Vec<u8>>, FetchError>
    ensures { result ≡ Spec.unopened kind }
{
    match kind {
        io::ErrorKind::NotFound => Ok(None),
        io::ErrorKind::OutOfMemory => Err(FetchError::OutOfMemory),
        _ => Err(FetchError::Failed),
    }
}

// Why an input that was opened could not be read.
fn unread(kind: io::ErrorKind) -> FetchError
    ensures { result ≡ Spec.unread kind }
{
    match kind {
        io::ErrorKind::OutOfMemory => FetchError::OutOfMemory,
        _ => FetchError::Failed,
    }
}

// What a fetch answers, by how the opening of the input ended.
fn fetched<R: Read + Drop>(
    opened: io::Result<R>,
    alloc: Global,
    most: usize,
) -> Result<Option<Vec<u8>>, FetchError>
    ensures bound { IfOk result (λ given. IfSome given (λ bytes. vec_len bytes ≤ most + 1)) }
    ensures opened { MatchResult opened (λ reader. IsReadUpTo most (R.remaining reader) result) (λ e. result ≡ Spec.unopened (error_kind e)) }
{
    match opened {
        Ok(reader) => match read_front(reader, alloc, most) {
            Ok(bytes) => Ok(Some(bytes)),
            Err(e) => Err(unread(e.kind())),
        },
        Err(e) => unopened(e.kind()),
    }
}

impl<R: Files + Drop> Inputs for FileInputs<R> {
    ghost told = { λ _. None };

    ghost journal = { λ s. noted_all s.journal.items };

    fn fetch(
        &mut self,
        alloc: Global,
        name: &str,
        most: usize,
    ) -> Result<Option<Vec<u8>>, FetchError> {
        match fetched(File::open(&self.rt, name), alloc, most) {
            Ok(Some(bytes)) => {
                note(alloc, &mut self.journal, name, Ending::Given)?;
                Ok(Some(bytes))
            }
            Ok(None) => {
                note(alloc, &mut self.journal, name, Ending::Absent)?;
                Ok(None)
            }
            Err(FetchError::Failed) => {
                note(alloc, &mut self.journal, name, Ending::Failed)?;
                Err(FetchError::Failed)
            }
            Err(FetchError::OutOfMemory) => Err(FetchError::OutOfMemory),
        }
    }
}
