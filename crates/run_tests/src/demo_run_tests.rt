//! Whole runs of the verb `demo`. What each line has to be is from a program in Python, over the AES of its package
//! `cryptography` and its own HMAC.

use crate::runs::{Run, marking, stops, writes};
use fle_stream::Status;

/// The line of one command.
const LINE: &str =
    "demo: 1 commands, 98 bytes in, 268 bytes out, 1 equal, 6762aee1ae2453ce65881e4120e70c89\n";

/// A run of these words over an input that isn't read.
fn words<'a>(words: &'a [&'a str]) -> Run<'a> {
    Run {
        words,
        ..marking(b"\x05\x00\x00")
    }
}

#[test]
fn one_command_and_ten_come_back_equal(rt: HostRuntime) {
    let cases: &[(&[&str], &str)] = &[
        (&["demo", "hr", "1"], LINE),
        (
            &["demo", "hr", "10"],
            "demo: 10 commands, 980 bytes in, 2680 bytes out, 10 equal, 5f115f7d37243f944ef3f73d0f820c63\n",
        ),
        (
            &["demo", "payroll", "2"],
            "demo: 2 commands, 206 bytes in, 546 bytes out, 2 equal, 2e42d5e77f91caa62eb23d3bed746e04\n",
        ),
    ];
    for (form, line) in cases {
        writes(&rt, rt.alloc(), words(form), line.as_bytes());
    }
}

#[test]
fn a_write_that_fails_ends_the_demo(rt: HostRuntime) {
    let run = Run {
        sink: &[0],
        ..words(&["demo", "hr", "1"])
    };
    stops(&rt, rt.alloc(), run, Status::WriteFault, "fle: 6 0 0 -\n");
}

#[test]
fn n_is_a_number_as_it_is_printed(rt: HostRuntime) {
    let numbers: &[&str] = &[
        "",
        "0",
        "01",
        "+1",
        "-1",
        "1 ",
        "1e3",
        "100001",
        "4294967297",
    ];
    for n in numbers {
        let form = ["demo", "hr", n];
        let run = words(&form);
        stops(&rt, rt.alloc(), run, Status::Words, "fle: 2 0 0 -\n");
    }
}

#[test]
fn two_words_stand_behind_demo(rt: HostRuntime) {
    let forms: &[&[&str]] = &[
        &["demo", "hr"],
        &["demo", "hr", "1", "2"],
        &["demo", "", "1"],
    ];
    for form in forms {
        let run = words(form);
        stops(&rt, rt.alloc(), run, Status::Words, "fle: 2 0 0 -\n");
    }
}

#[test]
fn the_database_has_at_most_63_bytes(rt: HostRuntime) {
    let long = "0123456789abcdef0123456789abcdef0123456789abcdef0123456789abcdef";
    let form = ["demo", long, "1"];
    let run = words(&form);
    stops(&rt, rt.alloc(), run, Status::Words, "fle: 2 0 0 -\n");
}
