//! What no clause says: that each call can succeed, and what the system's streams and files do.

use fle_outside::*;
use std::alloc::{AllocError, Global};
use std::io::{BufRead, ErrorKind, Read, Write};
use std::os::fd::AsRawFd;
use std::{fs, io};

/// A source of five bytes, at most two a call, whose calls of these numbers fail.
fn source_of_five(alloc: Global, failing: &[u64]) -> Result<MemSource, AllocError> {
    let bytes = vec![in alloc; 1u8, 2, 3, 4, 5]?;
    Ok(MemSource::new(bytes, 2, Vec::from_slice(alloc, failing)?))
}

#[test]
fn source_hands_out_its_bytes_in_steps(rt: HostRuntime) {
    let mut source = source_of_five(rt.alloc(), &[1]).expect(&rt, "no memory");
    let mut piece = [0u8; 4];
    assert!(rt; source.read(&mut piece) == ReadAnswer::Took(2) && piece == [1, 2, 0, 0]);
    assert!(rt; source.read(&mut piece) == ReadAnswer::Failed);
    assert!(rt; source.read(&mut piece) == ReadAnswer::Took(2));
}

#[test]
fn a_piece_is_filled_up_to_the_end(rt: HostRuntime) {
    let mut source = source_of_five(rt.alloc(), &[]).expect(&rt, "no memory");
    let mut piece = [0u8; 3];
    assert!(rt; fill_piece(&mut source, &mut piece) == Fill::Whole && piece == [1, 2, 3]);
    assert!(rt; fill_piece(&mut source, &mut piece) == Fill::Ended(2) && piece == [4, 5, 3]);
    assert!(rt; source.read(&mut piece) == ReadAnswer::End);
}

/// A folder of one file of three bytes, whose call of number 3 fails.
fn folder_of_keys(alloc: Global) -> Result<MemFolder, AllocError> {
    let name = String::from_str(alloc, "keys")?;
    let bytes = vec![in alloc; 7u8, 8, 9]?;
    let files = vec![in alloc; (name, bytes)]?;
    let folder = MemFolder::new(files, vec![in alloc; 3u64]?);
    Ok(folder)
}

#[test]
fn folder_reads_its_files_by_name(rt: HostRuntime) {
    let mut folder = folder_of_keys(rt.alloc()).expect(&rt, "no memory");
    let mut piece = [0u8; 2];
    assert!(rt; folder.read_at("keys", 1, &mut piece) == FileAnswer::Took(2) && piece == [8, 9]);
    let cases: &[(&str, u64, FileAnswer)] = &[
        ("keys", 3, FileAnswer::End),
        ("key", 0, FileAnswer::Missing),
        ("keys", 0, FileAnswer::Failed),
    ];
    for (name, at, answer) in cases {
        assert!(rt; folder.read_at(name, *at, &mut piece) == *answer);
    }
}

/// A sink with room for six bytes, at most two a call, whose calls of these numbers fail.
fn sink_of_six(alloc: Global, failing: &[u64]) -> Result<MemSink, Memory> {
    match Vec::from_slice(alloc, failing) {
        Ok(failing) => MemSink::new(alloc, 6, 2, failing),
        Err(_) => Err(Memory),
    }
}

#[test]
fn sink_takes_bytes_in_steps(rt: HostRuntime) {
    let mut sink = sink_of_six(rt.alloc(), &[1]).expect(&rt, "no memory");
    assert!(rt; sink.write(b"abc") == WriteAnswer::Took(2));
    assert!(rt; sink.write(b"c") == WriteAnswer::Failed);
    assert!(rt; sink.written() == b"ab".as_slice());
}

#[test]
fn sink_takes_bytes_until_it_is_full(rt: HostRuntime) {
    let mut sink = sink_of_six(rt.alloc(), &[]).expect(&rt, "no memory");
    assert!(rt; put_parts(&mut sink, &[b"abc", b"de"]) == Ok(()));
    assert!(rt; write_whole(&mut sink, b"fg") == Err(Failed));
    assert!(rt; sink.written() == b"abcdef".as_slice());
}

#[test]
fn standard_input_is_read_to_its_end(rt: HostRuntime) {
    let mut source = StdinSource::new(b"xyz".as_slice());
    let mut piece = [0u8; 2];
    assert!(rt; source.read(&mut piece) == ReadAnswer::Took(2));
    assert!(rt; piece == *b"xy");
    assert!(rt; source.read(&mut piece) == ReadAnswer::Took(1));
    assert!(rt; source.read(&mut piece) == ReadAnswer::End);
}

#[test]
fn standard_output_takes_a_line(rt: HostRuntime) {
    let mut sink = StdoutSink::new(rt.stdout());
    assert!(rt; sink.write(b"one line\n") == WriteAnswer::Took(9));
}

#[test]
fn standard_error_takes_a_line(rt: HostRuntime) {
    let mut sink = StderrSink::new(rt.stderr());
    assert!(rt; sink.write(b"one line\n") == WriteAnswer::Took(9));
}

#[test]
fn files_are_opened_by_name(rt: HostRuntime) {
    let name = "fle_outside_files_are_opened_by_name";
    fs::write(&rt, name, b"abcd").expect(&rt, "no file is written");
    let mut piece = [0u8; 3];
    let mut folder = FileFolder::new(&rt);
    let front = folder.read_at(name, 0, &mut piece);
    let end = folder.read_at(name, 4, &mut piece);
    fs::remove_file(&rt, name).expect(&rt, "the file stays");
    assert!(rt; front == FileAnswer::Took(3) && end == FileAnswer::End);
    assert!(rt; piece == *b"abc");
}

#[test]
fn file_that_another_replaces_is_read_on(rt: HostRuntime) {
    let (name, newer) = (
        "fle_outside_file_that_is_replaced",
        "fle_outside_file_that_replaces",
    );
    fs::write(&rt, name, b"older file").expect(&rt, "no file is written");
    fs::write(&rt, newer, b"newer file").expect(&rt, "no file is written");
    let mut piece = [0u8; 6];
    let mut folder = FileFolder::new(&rt);
    assert!(rt; folder.read_at(name, 0, &mut piece) == FileAnswer::Took(6) && piece == *b"older ");
    fs::rename(&rt, newer, name).expect(&rt, "no file is renamed");
    assert!(rt; folder.read_at(name, 6, &mut piece) == FileAnswer::Took(4) && piece == *b"filer ");
    assert!(rt; folder.read_at(name, 10, &mut piece) == FileAnswer::End);
    assert!(rt; folder.read_at(name, 0, &mut piece) == FileAnswer::Took(6) && piece == *b"newer ");
    fs::remove_file(&rt, name).expect(&rt, "the file stays");
}

#[test]
fn piece_that_does_not_follow_is_read_at_its_place(rt: HostRuntime) {
    let name = "fle_outside_piece_that_does_not_follow";
    fs::write(&rt, name, b"abcdef").expect(&rt, "no file is written");
    let mut piece = [0u8; 2];
    let mut folder = FileFolder::new(&rt);
    let places: &[(u64, [u8; 2])] = &[
        (0, *b"ab"),
        (4, *b"ef"),
        (2, *b"cd"),
        (1, *b"bc"),
        (0, *b"ab"),
    ];
    for (at, bytes) in places {
        assert!(rt;
            folder.read_at(name, *at, &mut piece) == FileAnswer::Took(2) && piece == *bytes
        );
    }
    fs::remove_file(&rt, name).expect(&rt, "the file stays");
}

#[test]
fn pipe_is_read_by_its_name_from_front_to_end(rt: HostRuntime) {
    let (reader, mut writer) = io::pipe(&rt).expect(&rt, "no pipe");
    writer
        .write_all(b"abcd")
        .expect(&rt, "the pipe takes nothing");
    drop(writer);
    let name = format!(in rt.alloc(); "/dev/fd/{}", reader.as_raw_fd()).expect(&rt, "no memory");
    let mut piece = [0u8; 3];
    let mut folder = FileFolder::new(&rt);
    assert!(rt; folder.read_at(&name, 0, &mut piece) == FileAnswer::Took(3) && piece == *b"abc");
    assert!(rt; folder.read_at(&name, 3, &mut piece) == FileAnswer::Took(1) && piece == *b"dbc");
    assert!(rt; folder.read_at(&name, 4, &mut piece) == FileAnswer::End);
    assert!(rt; folder.read_at(&name, 0, &mut piece) == FileAnswer::End);
    assert!(rt; folder.read_at(&name, 2, &mut piece) == FileAnswer::Failed);
}

#[test]
fn what_is_no_file_is_missing_or_fails(rt: HostRuntime) {
    let mut piece = [0u8; 3];
    let mut folder = FileFolder::new(&rt);
    let name = "fle_outside_no_file_has_this_name";
    assert!(rt; folder.read_at(name, 0, &mut piece) == FileAnswer::Missing);
    assert!(rt; folder.read_at(".", 0, &mut piece) == FileAnswer::Failed);
}

/// Two blocks, in the second of whose calls drawing fails.
fn two_blocks(alloc: Global) -> Result<MemEntropy, AllocError> {
    let blocks = vec![in alloc; [1u8; 16], [2u8; 16]]?;
    Ok(MemEntropy::new(blocks, vec![in alloc; 1u64]?))
}

#[test]
fn entropy_hands_out_its_blocks(rt: HostRuntime) {
    let mut entropy = two_blocks(rt.alloc()).expect(&rt, "no memory");
    assert!(rt; entropy.block() == Ok([1u8; 16]));
    assert!(rt; entropy.block() == Err(Failed));
    assert!(rt; draw_block(&mut entropy) == Ok([2u8; 16]));
    assert!(rt; draw_block(&mut entropy) == Err(Failed));
}

#[test]
fn system_gives_different_blocks(rt: HostRuntime) {
    let mut entropy = SystemEntropy::new(&rt);
    let first = entropy.block();
    assert!(rt; first.is_ok());
    for _ in 0..16 {
        assert!(rt; first != entropy.block());
    }
}

/// A reader of sevens that holds one byte at a time, and whose first look a signal cuts off.
#[derive(Drop)]
struct CutOff {
    looks: u64,
    held: usize,
}

impl Read for CutOff {
    fn read(&mut self, buf: &mut [u8]) -> io::Result<usize> {
        let n = if self.held > 0 {
            buf.len().min(1)
        } else {
            buf.len()
        };
        self.held = 0;
        buf[..n].fill(7);
        Ok(n)
    }
}

impl BufRead for CutOff {
    fn fill_buf(&mut self) -> io::Result<&[u8]> {
        self.looks = self.looks.saturating_add(1);
        if self.looks == 1 {
            return Err(io::Error::from(ErrorKind::Interrupted));
        }
        self.held = 1;
        Ok(&[7])
    }

    fn consume(&mut self, _amount: usize) {
        self.held = 0;
    }
}

#[test]
fn interrupted_read_is_made_again(rt: HostRuntime) {
    let mut source = StdinSource::new(CutOff { looks: 0, held: 0 });
    let mut piece = [0u8; 2];
    assert!(rt; source.read(&mut piece) == ReadAnswer::Took(1));
    assert!(rt; piece == [7, 0]);
}

#[test]
fn reader_that_holds_a_byte_at_a_time_is_not_looked_at_again(rt: HostRuntime) {
    let mut source = StdinSource::new(CutOff { looks: 1, held: 0 });
    let mut piece = [0u8; 4];
    assert!(rt; source.read(&mut piece) == ReadAnswer::Took(1));
    assert!(rt; source.read(&mut piece[1..]) == ReadAnswer::Took(3));
    assert!(rt; piece == [7; 4]);
}
