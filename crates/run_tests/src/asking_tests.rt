//! Which files a run asks its folder for: those that its words name, and no other.

ghost use Rattle.std.specs.Prelude.{◌≡◌, ◌==◌, Some, length, map, string_bytes};

use crate::runs::{MASTER, Run, entropy_of, folder_of, marking, sink_of, source_of, words_of};
use crypto_hooks::Tables;
use fle_outside::{FileAnswer, Folder, MemFolder};
use fle_runner::fle;
use std::alloc::Global;
use std::process::Abort;

/// Files in memory, and the names that were asked for, the last one first.
#[derive(Drop)]
struct NotingFolder<'a, R> {
    rt: &'a R,
    alloc: Global,
    files: MemFolder,
    names: Vec<String>,
}

impl<R: Abort> Folder for NotingFolder<'_, R> {
    ghost seen = { λ s. record {
      told = Some s.files.files;
      asked = Some (map string_bytes s.names.items);
      faults = s.files.faults;
      assured = length s.files.failing == 0;
    } };

    fn read_at(&mut self, name: &str, at: u64, piece: &mut [u8]) -> FileAnswer {
        let name_again = String::from_str(self.alloc, name).expect(self.rt, "memory");
        self.names.insert(0, name_again).expect(self.rt, "memory");
        self.files.read_at(name, at, piece)
    }
}

/// The names that a run of these words asks for, the last one first. The clause `asked` of `fle` holds of this folder,
/// which tells them.
fn asked<R: Abort>(rt: &R, alloc: Global, words: &[String], run: Run<'_>) -> Vec<String> {
    let mut files = NotingFolder {
        rt,
        alloc,
        files: folder_of(rt, alloc, run),
        names: Vec::new(alloc),
    };
    let _ = fle(
        alloc,
        words,
        run.time,
        &mut source_of(rt, alloc, run),
        &mut files,
        &mut sink_of(rt, alloc, run.room, run.sink),
        &mut sink_of(rt, alloc, run.diag_room, run.diag),
        &mut entropy_of(rt, alloc, run),
        &Tables,
    );
    files.names
}

/// The names in the order of the calls, each with a space behind it.
fn line_of(rt: &impl Abort, alloc: Global, names: &[String]) -> Vec<u8> {
    let mut line = Vec::new(alloc);
    for name in names.iter().rev() {
        line.extend_from_slice(name.as_bytes()).expect(rt, "memory");
        line.extend_from_slice(b" ").expect(rt, "memory");
    }
    line
}

/// A run of these words, over two master keys that are the same, asks for these files in this order: twice for one that
/// is read to its end, since the second read finds that.
fn asks(rt: &impl Abort, alloc: Global, words: &[&str], line: &str) {
    let run = Run {
        words,
        other: MASTER,
        ..marking(b"")
    };
    let names = asked(rt, alloc, &words_of(rt, alloc, words), run);
    assert!(rt;
        line_of(rt, alloc, &names).as_slice() == line.as_bytes(),
        "names"
    );
}

#[test]
fn each_verb_asks_for_the_files_of_its_words(rt: HostRuntime) {
    let cases: &[(&[&str], &str)] = &[
        (&["mark", "hr", "infos"], "infos infos "),
        (&["show"], ""),
        (&["keys", "keys"], "keys keys "),
        (&["keygen", "master", "infos"], "master master "),
        (
            &["encrypt", "hr", "keys", "infos", "master"],
            "keys keys infos infos master master ",
        ),
        (
            &["encrypt-with", "hr", "keys", "infos", "master"],
            "keys keys infos infos master master ",
        ),
        (&["decrypt", "keys", "master"], "keys keys master master "),
        (&["decrypt", "gone", "master"], "gone "),
        (&["demo", "hr", "1"], ""),
        (
            &["rewrap", "master", "other", "keys"],
            "master master other other keys keys ",
        ),
        (&["keys", "keys", "infos"], ""),
    ];
    for (words, line) in cases {
        asks(&rt, rt.alloc(), words, line);
    }
}
