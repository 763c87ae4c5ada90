//! Shapes of replies to `INSERT` and of the marking of `ssn` (MongoDB Client Side Encryption), each a list of elements:
//! their orders, and which of them are missing, stand twice or are others.

use crate::reply_parts::{
    A, FIRST, FIRST_CUT, FIRST_OFF, KI, N, OK, RESULT, SECOND, SECOND_OFF, V,
};

/// Right replies: the three elements that are read stand in any order.
pub const ORDERS: &[&[&[u8]]] = &[
    &[FIRST, SECOND, RESULT],
    &[FIRST, RESULT, SECOND],
    &[SECOND, FIRST, RESULT],
    &[SECOND, RESULT, FIRST],
    &[RESULT, FIRST, SECOND],
    &[RESULT, SECOND, FIRST],
];

/// Right replies: other elements stand between those three, also some of nearly the same names.
pub const WITH_OTHERS: &[&[&[u8]]] = &[
    &[OK, FIRST, OK, SECOND, RESULT, OK],
    &[OK, FIRST, OK, SECOND, N, RESULT, OK],
    &[
        FIRST,
        b"\x08ok\x00\x00",
        SECOND,
        b"\x02errmsg\x00\x02\x00\x00\x00x\x00",
        RESULT,
    ],
    &[
        b"\x10resul\x00\x01\x00\x00\x00",
        FIRST,
        SECOND,
        RESULT,
        b"\x10results\x00\x01\x00\x00\x00",
    ],
    &[
        b"\x10Result\x00\x01\x00\x00\x00",
        FIRST,
        b"\x10\x00\x01\x00\x00\x00",
        SECOND,
        RESULT,
    ],
    &[FIRST_CUT, FIRST, SECOND, RESULT],
    &[
        FIRST,
        SECOND,
        b"\x08schemaRequiresEncryptions\x00\x00",
        RESULT,
    ],
    &[
        FIRST_CUT,
        FIRST,
        SECOND,
        RESULT,
        b"\x0aschemaRequiresEncryptions\x00",
    ],
];

/// Replies in which one of the three is missing.
pub const INCOMPLETE: &[&[&[u8]]] = &[
    &[],
    &[OK],
    &[SECOND, RESULT, OK],
    &[FIRST, RESULT, OK],
    &[FIRST, SECOND, OK],
    &[FIRST_OFF, SECOND, OK],
    &[FIRST_OFF, SECOND_OFF, OK],
    &[FIRST, b"\x08schemaRequiresEncryptio\x00\x01", RESULT],
];

/// The fields of the right marking, in any order.
pub const FIELD_ORDERS: &[&[&[u8]]] = &[
    &[V, A, KI],
    &[V, KI, A],
    &[A, V, KI],
    &[A, KI, V],
    &[KI, V, A],
    &[KI, A, V],
];

/// The fields of no marking: one is missing, stands twice, or is one too many.
pub const WRONG_FIELDS: &[&[&[u8]]] = &[
    &[],
    &[A, KI],
    &[V, KI],
    &[V, A],
    &[V, V, A, KI],
    &[V, A, A, KI],
    &[V, A, KI, KI],
    &[V, V, KI],
    &[KI, A, KI],
    &[V, A, KI, N],
];
