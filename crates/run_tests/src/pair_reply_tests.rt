//! Whole runs of `encrypt-with` over replies whose three elements that are read stand in any order, are missing, stand
//! twice, have another type or differ: the reason and the element.

use crate::pair_samples::{
    RANDOM_A, RESULT_NAME, SALARY, SEALED_SALARY, SEALED_SSN, SSN, answered, binary_of, reply_of,
    reply_with,
};
use crate::pair_tests::{BLOCKS, answering};
use crate::runs::{Run, document, joined, next_block, stops, writes};
use crate::size_tests::insert_of;
use fle_stream::Status;
use sample_documents::reply_parts::{
    FIRST, FIRST_INT, FIRST_NULL, FIRST_OFF, KI, MARKED_SALARY, MARKED_SSN, N, OK, RESULT, SECOND,
    SECOND_INT, SECOND_OFF, SECOND_TEXT,
};
use sample_documents::reply_shapes::{INCOMPLETE, ORDERS, WITH_OTHERS};
use sample_documents::{INSERT, NOTES, SEALED_INSERT};
use std::alloc::Global;
use std::process::Abort;

/// A reply of these elements to `INSERT` must end with this line, or be right where there is none.
fn told(rt: &impl Abort, alloc: Global, elements: &[&[u8]], line: &str) {
    let reply = document(rt, alloc, elements);
    answered(rt, alloc, &reply, line);
}

#[test]
fn the_elements_that_are_read_stand_in_any_order(rt: HostRuntime) {
    for elements in ORDERS {
        told(&rt, rt.alloc(), elements, "");
    }
}

#[test]
fn other_elements_are_not_read(rt: HostRuntime) {
    for elements in WITH_OTHERS {
        told(&rt, rt.alloc(), elements, "");
    }
}

#[test]
fn each_of_the_three_is_wanted(rt: HostRuntime) {
    for elements in INCOMPLETE {
        told(&rt, rt.alloc(), elements, "fle: 1 2 25 -\n");
    }
}

#[test]
fn a_second_one_is_told_at_its_element(rt: HostRuntime) {
    let replies: &[(&[&[u8]], &str)] = &[
        (&[FIRST, FIRST, SECOND, RESULT], "fle: 1 2 25 1\n"),
        (&[FIRST, SECOND, RESULT, FIRST_OFF, OK], "fle: 1 2 25 3\n"),
        (&[FIRST, SECOND, SECOND, RESULT], "fle: 1 2 25 2\n"),
        (&[SECOND, OK, RESULT, SECOND_OFF, FIRST], "fle: 1 2 25 3\n"),
        (&[OK, FIRST, SECOND, RESULT, RESULT], "fle: 1 2 25 4\n"),
        (&[RESULT, RESULT, FIRST, FIRST], "fle: 1 2 25 1\n"),
    ];
    for (elements, line) in replies {
        told(&rt, rt.alloc(), elements, line);
    }
}

#[test]
fn another_type_is_told_at_its_element(rt: HostRuntime) {
    let replies: &[(&[&[u8]], &str)] = &[
        (&[FIRST_INT, SECOND, RESULT], "fle: 1 2 25 0\n"),
        (&[OK, FIRST_NULL, SECOND, RESULT], "fle: 1 2 25 1\n"),
        (&[FIRST, SECOND_INT, RESULT], "fle: 1 2 25 1\n"),
        (&[FIRST, SECOND_TEXT, RESULT], "fle: 1 2 25 1\n"),
        (&[FIRST, SECOND, b"\x08result\x00\x01"], "fle: 1 2 25 2\n"),
        (
            &[FIRST, SECOND, OK, b"\x04result\x00\x05\x00\x00\x00\x00"],
            "fle: 1 2 25 3\n",
        ),
        (
            &[FIRST, SECOND, b"\x05result\x00\x00\x00\x00\x00\x06"],
            "fle: 1 2 25 2\n",
        ),
    ];
    for (elements, line) in replies {
        told(&rt, rt.alloc(), elements, line);
    }
}

#[test]
fn a_wrong_shape_is_told_before_what_is_missing_or_differs(rt: HostRuntime) {
    let replies: &[(&[&[u8]], &str)] = &[
        (
            &[b"\x0aschemaRequiresEncryption\x00", FIRST_NULL],
            "fle: 1 2 25 0\n",
        ),
        (&[b"\x08result\x00\x01", SECOND, SECOND], "fle: 1 2 25 0\n"),
        (
            &[FIRST_OFF, SECOND_OFF, b"\x04result\x00\x05\x00\x00\x00\x00"],
            "fle: 1 2 25 2\n",
        ),
        (
            &[FIRST_OFF, FIRST_NULL, b"\x08result\x00\x01"],
            "fle: 1 2 25 1\n",
        ),
        (&[SECOND_OFF, RESULT, RESULT], "fle: 1 2 25 2\n"),
    ];
    for (elements, line) in replies {
        told(&rt, rt.alloc(), elements, line);
    }
}

#[test]
fn the_first_flag_is_told_before_the_second_and_the_result(rt: HostRuntime) {
    let replies: &[(&[&[u8]], &str)] = &[
        (&[FIRST_OFF, SECOND, RESULT], "fle: 1 2 26 0\n"),
        (&[FIRST, SECOND_OFF, RESULT], "fle: 1 2 26 1\n"),
        (&[FIRST, SECOND, RESULT_NAME, INSERT, OK], "fle: 1 2 26 2\n"),
        (
            &[FIRST_OFF, SECOND_OFF, RESULT_NAME, INSERT],
            "fle: 1 2 26 0\n",
        ),
        (&[SECOND_OFF, FIRST_OFF, RESULT], "fle: 1 2 26 1\n"),
        (
            &[RESULT_NAME, INSERT, OK, SECOND_OFF, FIRST],
            "fle: 1 2 26 2\n",
        ),
        (&[RESULT_NAME, INSERT, SECOND, FIRST], "fle: 1 2 26 0\n"),
    ];
    for (elements, line) in replies {
        told(&rt, rt.alloc(), elements, line);
    }
}

#[test]
fn the_result_is_the_command_that_was_sent(rt: HostRuntime) {
    let results: &[&[u8]] = &[INSERT, NOTES, b"\x05\x00\x00\x00\x00", SEALED_INSERT];
    for result in results {
        let reply = reply_with(&rt, rt.alloc(), result);
        answered(&rt, rt.alloc(), &reply, "fle: 1 2 26 2\n");
    }
}

#[test]
fn what_no_rule_concerns_is_the_same_in_the_result(rt: HostRuntime) {
    let results: &[&[&[u8]]] = &[
        &[MARKED_SSN],
        &[N, MARKED_SSN],
        &[MARKED_SSN, N, N],
        &[MARKED_SSN, b"\x10n\x00\x02\x00\x00\x00"],
        &[MARKED_SSN, b"\x10m\x00\x01\x00\x00\x00"],
        &[MARKED_SSN, b"\x12n\x00\x01\x00\x00\x00\x00\x00\x00\x00"],
        &[MARKED_SSN, N, MARKED_SALARY],
    ];
    for elements in results {
        let reply = reply_of(&rt, rt.alloc(), elements);
        answered(&rt, rt.alloc(), &reply, "fle: 1 2 26 2\n");
    }
}

/// The command that inserts `{ssn: "123-45-6789", salary: int 7}` into `people`, and a reply of these elements to it.
fn two_values(rt: &impl Abort, alloc: Global, elements: &[&[u8]]) -> Vec<u8> {
    let values = joined(rt, alloc, &[SSN, SALARY]);
    let command = insert_of(rt, alloc, &values);
    let reply = reply_of(rt, alloc, elements);
    joined(rt, alloc, &[&command, &reply])
}

#[test]
fn each_of_two_values_has_its_marking(rt: HostRuntime) {
    let alloc = rt.alloc();
    let turned = binary_of(
        &rt,
        alloc,
        b"\x05salary\x00",
        b"\x06\x00",
        &[KI, b"\x10v\x00\x07\x00\x00\x00", RANDOM_A],
        b"",
    );
    let values = joined(&rt, alloc, &[SEALED_SSN, SEALED_SALARY]);
    let sealed = insert_of(&rt, alloc, &values);
    let replies: [&[u8]; 2] = [MARKED_SALARY, &turned];
    for salary in replies {
        let input = two_values(&rt, alloc, &[MARKED_SSN, salary]);
        let run = Run {
            blocks: &BLOCKS,
            ..answering(&input)
        };
        writes(&rt, alloc, run, &sealed);
    }
}

#[test]
fn a_value_left_plain_or_marked_otherwise_is_told_before_any_block(rt: HostRuntime) {
    let alloc = rt.alloc();
    let replies: &[&[&[u8]]] = &[
        &[SSN, MARKED_SALARY],
        &[MARKED_SSN, SALARY],
        &[SSN, SALARY],
        &[MARKED_SALARY, MARKED_SSN],
        &[MARKED_SSN],
        &[MARKED_SSN, MARKED_SSN],
        &[MARKED_SSN, SEALED_SALARY],
    ];
    for elements in replies {
        let input = two_values(&rt, alloc, elements);
        let run = Run {
            blocks: &BLOCKS,
            ..answering(&input)
        };
        stops(&rt, alloc, run, Status::Refused, "fle: 1 2 26 2\n");
        assert!(rt; next_block(&rt, alloc, run) == Some(BLOCKS[0]));
    }
}
