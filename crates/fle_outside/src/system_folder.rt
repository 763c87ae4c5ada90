//! The system's files.

ghost use Rattle.std.specs.Prelude.{◌≡◌, ◌<◌, false, length, None};
ghost use Rattle.fle_outside.specs.Files.{FileWithin, FileCause};

use crate::answers::FileAnswer;
use crate::folder::Folder;
use crate::streams::TURNS;
use arrayvec::ArrayString;
use std::fs;
use std::io::{self, ErrorKind, Read, Seek, SeekFrom};
use std::rt::Files;

/// The most bytes of a path that the system opens: `PATH_MAX` of POSIX's `limits.h`, 4,096 on Linux with the NUL.
const LONGEST_PATH: usize = 4095;

/// The files of the system, as its runtime opens them. It tells nothing and is assured of nothing.
/// `Missing` is answered where the system says that there is no such file; each other error is a
/// counted failure.
///
/// The file that was opened last stays open until its end is read, or it fails, and a piece that follows the one before
/// is read from it. So what is read front to end is one file, also where another takes its name meanwhile, and a pipe
/// can be read by its name. Behind its end no file is open.
#[derive(Drop)]
pub struct FileFolder<'a, R: Files> {
    runtime: &'a R,
    opened: Option<OpenedFile<R::File>>,
    faults: u64,
}

/// A file that was opened under this name, and the place of its next byte.
#[derive(Drop)]
struct OpenedFile<F> {
    name: ArrayString<LONGEST_PATH>,
    next: u64,
    file: F,
}

impl<'a, R: Files> FileFolder<'a, R> {
    /// A folder over this runtime, with no file open and no fault so far.
    pub fn new(runtime: &'a R) -> FileFolder<'a, R>
        ensures faultless { result.faults ≡ 0 }
    {
        FileFolder {
            runtime,
            opened: None,
            faults: 0,
        }
    }

    /// The file that is open, where it goes on at this place, else the file of this name, opened anew. Until it is put
    /// back none is open.
    fn file_at(&mut self, name: &str, at: u64) -> io::Result<OpenedFile<R::File>>
        ensures faults { self.new.faults ≡ self.old.faults }
    {
        match self.opened.take() {
            Some(opened) if opened.goes_on(name, at) => return Ok(opened),
            _ => {}
        }
        OpenedFile::open(self.runtime, name, at)
    }
}

impl<R: Files> Folder for FileFolder<'_, R> {
    ghost seen = { λ s. record { told = None; asked = None; faults = s.faults; assured = false } };

    fn read_at(&mut self, name: &str, at: u64, piece: &mut [u8]) -> FileAnswer {
        match self.file_at(name, at) {
            Ok(mut opened) => {
                let answer = opened.read_on(&mut self.faults, piece);
                if let FileAnswer::Took(_) = answer {
                    self.opened = Some(opened);
                }
                answer
            }
            Err(error) if error.kind() == ErrorKind::NotFound => FileAnswer::Missing,
            Err(_) => {
                self.faults = self.faults.saturating_add(1);
                FileAnswer::Failed
            }
        }
    }
}

impl<F: Read + Seek> OpenedFile<F> {
    /// Opens the file of this name, and goes to the place where it isn't the front: a pipe has no other.
    fn open<R: Files<File = F>>(runtime: &R, name: &str, at: u64) -> io::Result<OpenedFile<F>> {
        let Ok(kept) = ArrayString::from(name) else {
            return Err(io::Error::from(ErrorKind::InvalidInput));
        };
        let mut file = fs::open(runtime, name)?;
        if at > 0 {
            file.seek(SeekFrom::Start(at))?;
        }
        Ok(OpenedFile {
            name: kept,
            next: at,
            file,
        })
    }

    /// Whether these are the file's name and the place of its next byte. At its front a file is always opened anew.
    fn goes_on(&self, name: &str, at: u64) -> bool {
        at > 0 && self.next == at && self.name.as_str() == name
    }

    /// Reads the next bytes, counts each error, and reads again after one that came from a signal.
    fn read_on(&mut self, faults: &mut u64, piece: &mut [u8]) -> FileAnswer
        requires { 0 < length piece.old }
        ensures within { FileWithin result (length piece.new) }
        ensures cause { FileCause faults.old faults.new result }
    {
        for _turn in 0..TURNS {
            match self.file.read(piece) {
                Ok(0) => return FileAnswer::End,
                Ok(n) => {
                    self.next = self.next.saturating_add(n as u64);
                    return FileAnswer::Took(n);
                }
                Err(error) => {
                    *faults = faults.saturating_add(1);
                    if error.kind() != ErrorKind::Interrupted {
                        return FileAnswer::Failed;
                    }
                }
            }
        }
        FileAnswer::Failed
    }
}
