//! A folder in memory.

ghost use Rattle.std.specs.Prelude.{◌≡◌, ◌+◌, ◌-◌, ◌<◌, ◌≤◌, true, length, map, None, Some};
ghost use Rattle.fle_outside.specs.Memory.{entry, HasDistinctNames, file_answer, after_file, folder_seen};
ghost use Rattle.fle_outside.specs.Files.{Files, FileAsked, FileWithin, FileGives, FileCause, file_of, GivesAt};
ghost use Rattle.fle_outside.specs.Files.{answer_at, IsFile};

use crate::answers::FileAnswer;
use crate::counts::call_fails;
use crate::folder::Folder;
use std::marker::Model;

/// Files in memory, whose reads fail where a list says so. Contracts see the files, the numbers of
/// the calls that are to fail, the number of the next call and the count of faults.
#[derive(Drop)]
pub struct MemFolder {
    entries: Vec<(String, Vec<u8>)>,
    failing: Vec<u64>,
    calls: u64,
    faults: u64,
}

impl Model for MemFolder {
    ghost use Rattle.std.specs.Prelude.{map};
    ghost use Rattle.fle_outside.specs.Memory.{entry, FolderState};

    ghost Value = { FolderState };

    ghost view = { λ s. record {
      files = map entry s.entries.items;
      failing = s.failing.items;
      calls = s.calls;
      faults = s.faults;
    } };
}

impl MemFolder {
    /// A folder of these files, whose names are distinct. The calls of the numbers in `failing`,
    /// counted from 0, fail. It is assured of never failing where that list is empty.
    pub fn new(files: Vec<(String, Vec<u8>)>, failing: Vec<u64>) -> MemFolder
        requires { HasDistinctNames (map entry files.items) }
        ensures begins { result ≡ record {
          files = map entry files.items;
          failing = failing.items;
          calls = 0;
          faults = 0;
        } }
    {
        MemFolder {
            entries: files,
            failing,
            calls: 0,
            faults: 0,
        }
    }
}

impl Folder for MemFolder {
    ghost seen = { folder_seen };

    fn read_at(&mut self, name: &str, at: u64, piece: &mut [u8]) -> FileAnswer
        requires { 0 < length piece.old }
        ensures within { FileWithin result (length piece.new) }
        ensures bytes { FileGives (Some self.old.files) name.now at result piece.new }
        ensures same { Some self.new.files ≡ Some self.old.files }
        ensures asked { FileAsked None None name.now }
        ensures cause { FileCause self.old.faults self.new.faults result }
        ensures sure { (folder_seen self.old).assured ≡ true
            → (result ≡ FileAnswer.Failed → ⊥) × ((folder_seen self.new).assured ≡ true) }
        ensures exact { result ≡ file_answer self.old name.now at (length piece.new) }
        ensures state { self.new ≡ after_file self.old result }
    {
        let fails = call_fails(&self.failing, self.calls);
        self.calls = self.calls.saturating_add(1);
        if fails {
            self.faults = self.faults.saturating_add(1);
            return FileAnswer::Failed;
        }
        match find_file(&self.entries, name) {
            None => FileAnswer::Missing,
            Some(bytes) => read_bytes(bytes, at, piece),
        }
    }
}

/// The bytes of the file of that name.
fn find_file<'a>(entries: &'a [(String, Vec<u8>)], name: &str) -> Option<&'a [u8]>
    ensures { IsFile (file_of (map entry entries.now) name.now) result }
{
    for file in entries {
        if file.0.as_str() == name {
            return Some(file.1.as_slice());
        }
    }
    None
}

/// Copies the bytes at a place into the front of `piece`.
fn read_bytes(bytes: &[u8], at: u64, piece: &mut [u8]) -> FileAnswer
    requires { 0 < length piece.old }
    ensures exact { result ≡ answer_at (Some bytes.now) at (length piece.new) }
    ensures bytes { GivesAt (Some bytes.now) at result piece.new }
{
    if bytes.len() as u64 <= at {
        return FileAnswer::End;
    }
    let (_, left) = bytes.split_at(at as usize);
    let n = piece.len().min(left.len());
    piece[..n].copy_from_slice(&left[..n]);
    FileAnswer::Took(n)
}
