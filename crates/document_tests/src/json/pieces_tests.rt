//! Texts that are longer than a piece.

use bson_codec::{RawDoc, check_bson};
use ext_json::{Piece, Shown, send_text, show_whole, write_text};
use fle_outside::{MemSink, Memory};
use std::alloc::{AllocError, Global};

/// {n: null, d: {s: 40,001 bytes, t: as many}, l: 70,001 bytes, n: null, s: 5 bytes} but for its last three bytes:
/// parts that are followed by so many times `x`.
const LONG: &[(&[u8], usize)] = &[
    (
        b"\x2b\x4a\x02\x00\x0an\x00\x03d\x00\x97\x38\x01\x00\x02s\x00\x42\x9c\x00\x00",
        40_001,
    ),
    (b"\x00\x02t\x00\x42\x9c\x00\x00", 40_001),
    (b"\x00\x00\x02l\x00\x72\x11\x01\x00", 70_001),
    (b"\x00\x0an\x00\x02s\x00\x06\x00\x00\x00", 4),
];

/// That document; the last byte of its last text is given.
fn long_document(alloc: Global, last: u8) -> Result<Vec<u8>, AllocError> {
    let mut bytes = Vec::new(alloc);
    for (part, count) in LONG {
        bytes.extend_from_slice(part)?;
        bytes.resize(bytes.len().saturating_add(*count), b'x')?;
    }
    bytes.extend_from_slice(&[last, 0, 0])?;
    Ok(bytes)
}

/// The document of these bytes.
fn read(bytes: &[u8]) -> Option<RawDoc<'_>> {
    if bytes.len() >= 200_000 {
        return None;
    }
    check_bson(bytes).ok()
}

/// A sink of so much room, which takes at most 1000 bytes a call.
fn sink_of(alloc: Global, room: usize) -> Result<MemSink, Memory> {
    MemSink::new(alloc, room, 1000, Vec::new(alloc))
}

/// Whether a document is written whole to a sink of so much room, and that sink.
fn written(alloc: Global, document: &RawDoc<'_>, room: usize) -> Result<(bool, MemSink), Memory> {
    let mut out = sink_of(alloc, room)?;
    let whole = write_text(document, &mut out).is_ok();
    Ok((whole, out))
}

/// Whether it is sent whole, piece by piece, as this text.
fn is_sent(alloc: Global, document: &RawDoc<'_>, piece: &mut Piece, text: &[u8]) -> bool {
    match sink_of(alloc, 160_000) {
        Ok(mut out) => send_text(document, piece, &mut out).is_ok() && out.written() == text,
        Err(Memory) => false,
    }
}

/// What showing it as a line answers, and the sink of so much room.
fn shown(
    alloc: Global,
    document: &RawDoc<'_>,
    piece: &mut Piece,
    room: usize,
) -> Result<(Shown, MemSink), Memory> {
    let mut out = sink_of(alloc, room)?;
    let answer = show_whole(document, b"\n", piece, &mut out);
    Ok((answer, out))
}

/// Whether the line is this text and a line feed.
fn is_line_of(line: &[u8], text: &[u8]) -> bool {
    match line {
        [front @ .., b'\n'] => front == text,
        _ => false,
    }
}

#[test]
fn a_long_text_is_sent_whole(rt: HostRuntime) {
    let long = long_document(rt.alloc(), b'x').expect(&rt, "no memory");
    let document = read(&long).expect(&rt, "no document");
    let mut piece = Piece::new(rt.alloc());
    let (whole, text) = written(rt.alloc(), &document, 160_000).expect(&rt, "no memory");
    assert!(rt; whole && is_sent(rt.alloc(), &document, &mut piece, text.written()));
    let (answer, line) = shown(rt.alloc(), &document, &mut piece, 160_000).expect(&rt, "no memory");
    assert!(rt; answer == Shown::Written && is_line_of(line.written(), text.written()));
}

#[test]
fn nothing_is_written_of_a_long_document_without_a_text(rt: HostRuntime) {
    let long = long_document(rt.alloc(), 0xff).expect(&rt, "no memory");
    let document = read(&long).expect(&rt, "no document");
    let mut piece = Piece::new(rt.alloc());
    let (answer, line) = shown(rt.alloc(), &document, &mut piece, 160_000).expect(&rt, "no memory");
    assert!(rt; answer == Shown::Bad(150_048) && line.written().is_empty());
}

/// Whether a document of which a sink has no room for the text is shown up to the same byte as it is written.
fn is_cut(alloc: Global, document: &RawDoc<'_>, piece: &mut Piece, room: usize) -> bool {
    let Ok((whole, front)) = written(alloc, document, room) else {
        return false;
    };
    let Ok((answer, line)) = shown(alloc, document, piece, room) else {
        return false;
    };
    !whole && answer == Shown::Failed && line.written() == front.written()
}

#[test]
fn a_full_sink_holds_a_front_of_a_long_text(rt: HostRuntime) {
    let long = long_document(rt.alloc(), b'x').expect(&rt, "no memory");
    let document = read(&long).expect(&rt, "no document");
    let mut piece = Piece::new(rt.alloc());
    let rooms: &[usize] = &[7, 40_020, 100_000];
    for room in rooms {
        assert!(rt; is_cut(rt.alloc(), &document, &mut piece, *room));
    }
}
