//! The files of the system: a trusted edge.

ghost use Rattle.std.specs.Prelude.{◌≡◌, ◌≤◌, ℕ, List, length, Ok, IfOk, OnErr, is_err, true};
ghost use Rattle.kin_io.specs.Outside.{HasCause};

use crate::shelves::Shelf;
use kin_ids::Failed;
use std::io::{Read, Seek, SeekFrom};
use std::rt::Files;
use std::{fs, io};

/// The files of the system. It tells nothing of their bytes, and its one count of faults stands
/// for every name. Each read opens the file and seeks, so reads should be large.
#[derive(Drop)]
pub struct FileShelf<'a, R> {
    rt: &'a R,
    faults: u64,
}

impl<'a, R: Files> FileShelf<'a, R> {
    ghost use Rattle.kin_io.specs.Edges.{file_faults};

    /// No read has failed yet. It takes no memory.
    pub fn new(rt: &'a R) -> FileShelf<'a, R>
        ensures { file_faults result ≡ 0 }
    {
        FileShelf { rt, faults: 0 }
    }

    // What a read answers: as many bytes as the system gave, and a fault, which is counted, where it gave an error.
    fn answered(&mut self, given: io::Result<usize>) -> Result<usize, Failed>
        ensures given { IfOk given (λ n. result ≡ Ok n) }
        ensures error { OnErr given (is_err result ≡ true) }
        ensures cause { HasCause (file_faults self.old) (file_faults self.new) result }
    {
        match given {
            Ok(count) => Ok(count),
            Err(_) => {
                self.faults = self.faults.saturating_add(1);
                Err(Failed)
            }
        }
    }
}

// Opens a file and reads from a place on.
fn read_file<R: Files>(rt: &R, name: &str, at: u64, buf: &mut [u8]) -> io::Result<usize>
    ensures { IfOk result (λ n. n ≤ length buf.old) }
{
    let mut file = fs::open(rt, name)?;
    file.seek(SeekFrom::Start(at))?;
    file.read(buf)
}

impl<'a, R: Files> Shelf for FileShelf<'a, R> {
    ghost use Rattle.std.specs.Prelude.{None};
    ghost use Rattle.kin_io.specs.Edges.{file_faults};

    ghost content = { λ s name. None };

    ghost faults = { λ s name. file_faults s };

    fn read_at(&mut self, name: &str, at: u64, buf: &mut [u8]) -> Result<usize, Failed> {
        let given = read_file(self.rt, name, at, buf);
        self.answered(given)
    }
}
