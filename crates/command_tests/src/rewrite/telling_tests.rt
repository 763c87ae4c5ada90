//! Who is told of each payload of a document, while it is found.

use crate::documents::{document_of, whole};
use crate::rewrite::payload_samples::TAG_AND_SHAPE;
use crate::rewrite::samples::TWO_DOCUMENTS;
use doc_rewrite::{FindFault, Found, FoundAt, Listener, find_payloads, tell_payloads};
use std::alloc::Global;

/// Who is to be told of payloads at these places: start, end and levels.
#[derive(Drop)]
struct Expecting {
    places: &'static [(u32, u32, u32)],
    /// How many were told of, all as they should be.
    heard: usize,
    /// Whether another was told of than was to come.
    wrong: bool,
}

impl Listener for Expecting {
    ghost tells = { λ a b f. Unit {0} };

    fn tell(&mut self, payload: FoundAt) {
        let place = (payload.start, payload.end, payload.levels);
        if self.heard < self.places.len() && self.places[self.heard] == place {
            self.heard += 1;
        } else {
            self.wrong = true;
        }
    }
}

/// Whether just these payloads are told of, one after the other, and where a payload of a wrong length stands.
fn tells(bytes: &[u8], places: &'static [(u32, u32, u32)], fault: Option<u32>) -> bool {
    let Some(document) = document_of(bytes) else {
        return false;
    };
    let mut expecting = Expecting {
        places,
        heard: 0,
        wrong: false,
    };
    let stopped = match tell_payloads(&document, &mut expecting) {
        Ok(_) => None,
        Err(FindFault { at }) => Some(at),
    };
    expecting.heard == places.len() && !expecting.wrong && stopped == fault
}

/// Where the payload of this number begins.
fn start_of(found: &Found<'_>, number: usize) -> Option<u32> {
    match found.get(number) {
        Some(payload) => Some(payload.start),
        None => None,
    }
}

/// Whether payloads of these numbers begin there, or aren't there at `None`.
fn begin(bytes: &[u8], starts: &[(usize, Option<u32>)]) -> bool {
    let Some(document) = document_of(bytes) else {
        return false;
    };
    let Ok(found) = find_payloads(&document) else {
        return false;
    };
    for (number, start) in starts {
        if start_of(&found, *number) != *start {
            return false;
        }
    }
    true
}

#[test]
fn payloads_are_told_of_in_reading_order(rt: HostRuntime) {
    let two = whole(rt.alloc(), TWO_DOCUMENTS.sealed).expect(&rt, "no memory");
    let places = &[(53, 140, 97), (153, 256, 97), (264, 351, 97)];
    assert!(rt; tells(&two, places, None));
    let wrong = whole(rt.alloc(), TAG_AND_SHAPE).expect(&rt, "no memory");
    assert!(rt; tells(&wrong, &[(47, 150, 97)], Some(153)));
}

#[test]
fn payloads_have_numbers(rt: HostRuntime) {
    let bytes = whole(rt.alloc(), TWO_DOCUMENTS.sealed).expect(&rt, "no memory");
    assert!(rt; begin(&bytes, &[(0, Some(53)), (2, Some(264)), (3, None)]));
}
