//! Commands with what they are sealed to under the random blocks of 01 and of 02.

use crate::rewrite::sample_bytes::{AB, SALARY_7, SALARY_8, SALARY_70000, X, Y};
use encrypt_schema::{Mark, Role};
use sample_documents::SSN_PAYLOAD;

/// A command, the marks of its protected values, and what it is sealed to, texts and payloads one behind the other.
#[derive(Drop)]
pub(crate) struct Sample {
    pub(crate) collection: &'static [u8],
    pub(crate) command: &'static [&'static [u8]],
    pub(crate) marks: &'static [Mark],
    pub(crate) sealed: &'static [&'static [u8]],
}

/// `{insert: "people", documents: [{ssn: "123-45-6789", n: int 1}], $db: "hr"}`.
pub(crate) const ONE_STRING: Sample = Sample {
    collection: b"people",
    command: &[
        b"X\x00\x00\x00\x02insert\x00\x07\x00\x00\x00people\x00\x04documents\x00)\x00\x00",
        b"\x00\x030\x00!\x00\x00\x00\x02ssn\x00\x0c\x00\x00\x00123-45-6789\x00\x10n\x00",
        b"\x01\x00\x00\x00\x00\x00\x02$db\x00\x03\x00\x00\x00hr\x00\x00",
    ],
    marks: &[Mark {
        start: 50,
        end: 66,
        tag: 2,
        policy: 0,
        role: Role::Store,
        name: None,
    }],
    sealed: &[
        b"\xaf\x00\x00\x00\x02insert\x00\x07\x00\x00\x00people\x00\x04documents\x00\x80",
        b"\x00\x00\x00\x030\x00x\x00\x00\x00\x05ssn\x00b\x00\x00\x00\x06",
        SSN_PAYLOAD,
        b"\x10n\x00\x01\x00\x00\x00\x00\x00\x02$db\x00\x03\x00\x00\x00hr\x00\x00",
    ],
};

/// `{insert: "people", documents: [{salary: int 7}], $db: "hr"}`.
pub(crate) const ONE_INT: Sample = Sample {
    collection: b"people",
    command: &[
        b"H\x00\x00\x00\x02insert\x00\x07\x00\x00\x00people\x00\x04documents\x00\x19\x00",
        b"\x00\x00\x030\x00\x11\x00\x00\x00\x10salary\x00\x07\x00\x00\x00\x00\x00\x02$db",
        b"\x00\x03\x00\x00\x00hr\x00\x00",
    ],
    marks: &[Mark {
        start: 53,
        end: 57,
        tag: 16,
        policy: 1,
        role: Role::Store,
        name: None,
    }],
    sealed: &[
        b"\x9b\x00\x00\x00\x02insert\x00\x07\x00\x00\x00people\x00\x04documents\x00l\x00",
        b"\x00\x00\x030\x00d\x00\x00\x00\x05salary\x00R\x00\x00\x00\x06",
        SALARY_7,
        b"\x00\x00\x02$db\x00\x03\x00\x00\x00hr\x00\x00",
    ],
};

/// What every sealed form of an insert of two documents begins with.
pub(crate) const BOTH_FRONT: &[u8] =
    b"n\x01\x00\x00\x02insert\x00\x07\x00\x00\x00people\x00\x04documents\x00?\x01\x00";

/// `{insert: "people", documents: [{salary: int 7}, {ssn: "123-45-6789", salary: int 8}], $db: "hr"}`.
pub(crate) const TWO_DOCUMENTS: Sample = Sample {
    collection: b"people",
    command: &[
        b"q\x00\x00\x00\x02insert\x00\x07\x00\x00\x00people\x00\x04documents\x00B\x00\x00",
        b"\x00\x030\x00\x11\x00\x00\x00\x10salary\x00\x07\x00\x00\x00\x00\x031\x00&\x00",
        b"\x00\x00\x02ssn\x00\x0c\x00\x00\x00123-45-6789\x00\x10salary\x00\x08\x00\x00\x00",
        b"\x00\x00\x02$db\x00\x03\x00\x00\x00hr\x00\x00",
    ],
    marks: &[
        Mark {
            start: 53,
            end: 57,
            tag: 16,
            policy: 1,
            role: Role::Store,
            name: None,
        },
        Mark {
            start: 70,
            end: 86,
            tag: 2,
            policy: 0,
            role: Role::Store,
            name: None,
        },
        Mark {
            start: 94,
            end: 98,
            tag: 16,
            policy: 1,
            role: Role::Store,
            name: None,
        },
    ],
    sealed: &[
        BOTH_FRONT,
        b"\x00\x030\x00d\x00\x00\x00\x05salary\x00R\x00\x00\x00\x06",
        SALARY_7,
        b"\x00\x031\x00\xd0\x00\x00\x00\x05ssn\x00b\x00\x00\x00\x06",
        SSN_PAYLOAD,
        b"\x05salary\x00R\x00\x00\x00\x06",
        SALARY_8,
        b"\x00\x00\x02$db\x00\x03\x00\x00\x00hr\x00\x00",
    ],
};

/// `{insert: "people", documents: [{ssn: "x", ssn: "x"}], $db: "hr"}`.
pub(crate) const EQUAL_NAMES: Sample = Sample {
    collection: b"people",
    command: &[
        b"R\x00\x00\x00\x02insert\x00\x07\x00\x00\x00people\x00\x04documents\x00#\x00\x00",
        b"\x00\x030\x00\x1b\x00\x00\x00\x02ssn\x00\x02\x00\x00\x00x\x00\x02ssn\x00\x02\x00",
        b"\x00\x00x\x00\x00\x00\x02$db\x00\x03\x00\x00\x00hr\x00\x00",
    ],
    marks: &[
        Mark {
            start: 50,
            end: 56,
            tag: 2,
            policy: 0,
            role: Role::Store,
            name: None,
        },
        Mark {
            start: 61,
            end: 67,
            tag: 2,
            policy: 0,
            role: Role::Store,
            name: None,
        },
    ],
    sealed: &[
        b"\xf4\x00\x00\x00\x02insert\x00\x07\x00\x00\x00people\x00\x04documents\x00\xc5",
        b"\x00\x00\x00\x030\x00\xbd\x00\x00\x00\x05ssn\x00R\x00\x00\x00\x06",
        X,
        b"\x05ssn\x00R\x00\x00\x00\x06",
        X,
        b"\x00\x00\x02$db\x00\x03\x00\x00\x00hr\x00\x00",
    ],
};

/// `{find: "people", filter: {ssn: {$in: ["x", "y", "x"]}}, $db: "hr"}`.
pub(crate) const IN_LIST: Sample = Sample {
    collection: b"people",
    command: &[
        b"^\x00\x00\x00\x02find\x00\x07\x00\x00\x00people\x00\x03filter\x004\x00\x00\x00",
        b"\x03ssn\x00*\x00\x00\x00\x04$in\x00 \x00\x00\x00\x020\x00\x02\x00\x00\x00x\x00",
        b"\x021\x00\x02\x00\x00\x00y\x00\x022\x00\x02\x00\x00\x00x\x00\x00\x00\x00\x02$db",
        b"\x00\x03\x00\x00\x00hr\x00\x00",
    ],
    marks: &[
        Mark {
            start: 54,
            end: 60,
            tag: 2,
            policy: 0,
            role: Role::Compare,
            name: None,
        },
        Mark {
            start: 63,
            end: 69,
            tag: 2,
            policy: 0,
            role: Role::Compare,
            name: None,
        },
        Mark {
            start: 72,
            end: 78,
            tag: 2,
            policy: 0,
            role: Role::Compare,
            name: None,
        },
    ],
    sealed: &[
        b"Q\x01\x00\x00\x02find\x00\x07\x00\x00\x00people\x00\x03filter\x00'\x01\x00\x00",
        b"\x03ssn\x00\x1d\x01\x00\x00\x04$in\x00\x13\x01\x00\x00\x050\x00R\x00\x00\x00\x06",
        X,
        b"\x051\x00R\x00\x00\x00\x06",
        Y,
        b"\x052\x00R\x00\x00\x00\x06",
        X,
        b"\x00\x00\x00\x02$db\x00\x03\x00\x00\x00hr\x00\x00",
    ],
};

/// `{find: "people", filter: {ssn: {$in: []}}, $db: "hr"}`, in which nothing is protected.
pub(crate) const EMPTY_LIST: Sample = Sample {
    collection: b"people",
    command: NO_VALUES,
    marks: &[],
    sealed: NO_VALUES,
};

const NO_VALUES: &[&[u8]] = &[
    b"C\x00\x00\x00\x02find\x00\x07\x00\x00\x00people\x00\x03filter\x00\x19\x00\x00\x00\x03ssn",
    b"\x00\x0f\x00\x00\x00\x04$in\x00\x05\x00\x00\x00\x00\x00\x00\x02$db\x00\x03\x00\x00\x00hr",
    b"\x00\x00",
];

/// `{update: "staff", updates: [{q: {}, u: {$set: {"a.b": int 1}}}], $db: "hr"}`.
pub(crate) const DOTTED: Sample = Sample {
    collection: b"staff",
    command: &[
        b"]\x00\x00\x00\x02update\x00\x06\x00\x00\x00staff\x00\x04updates\x001\x00\x00\x00",
        b"\x030\x00)\x00\x00\x00\x03q\x00\x05\x00\x00\x00\x00\x03u\x00\x19\x00\x00\x00\x03",
        b"$set\x00\x0e\x00\x00\x00\x10a.b\x00\x01\x00\x00\x00\x00\x00\x00\x00\x02$db\x00",
        b"\x03\x00\x00\x00hr\x00\x00",
    ],
    marks: &[Mark {
        start: 72,
        end: 76,
        tag: 16,
        policy: 0,
        role: Role::Store,
        name: None,
    }],
    sealed: &[
        b"\xb0\x00\x00\x00\x02update\x00\x06\x00\x00\x00staff\x00\x04updates\x00\x84\x00",
        b"\x00\x00\x030\x00|\x00\x00\x00\x03q\x00\x05\x00\x00\x00\x00\x03u\x00l\x00\x00",
        b"\x00\x03$set\x00a\x00\x00\x00\x05a.b\x00R\x00\x00\x00\x06",
        AB,
        b"\x00\x00\x00\x00\x02$db\x00\x03\x00\x00\x00hr\x00\x00",
    ],
};

/// `{update: "staff", updates: [{q: {}, u: {$set: {a: {b: int 1}}}}], $db: "hr"}`.
pub(crate) const NESTED: Sample = Sample {
    collection: b"staff",
    command: &[
        b"c\x00\x00\x00\x02update\x00\x06\x00\x00\x00staff\x00\x04updates\x007\x00\x00\x00",
        b"\x030\x00/\x00\x00\x00\x03q\x00\x05\x00\x00\x00\x00\x03u\x00\x1f\x00\x00\x00\x03",
        b"$set\x00\x14\x00\x00\x00\x03a\x00\x0c\x00\x00\x00\x10b\x00\x01\x00\x00\x00\x00",
        b"\x00\x00\x00\x00\x02$db\x00\x03\x00\x00\x00hr\x00\x00",
    ],
    marks: &[Mark {
        start: 77,
        end: 81,
        tag: 16,
        policy: 0,
        role: Role::Store,
        name: None,
    }],
    sealed: &[
        b"\xb6\x00\x00\x00\x02update\x00\x06\x00\x00\x00staff\x00\x04updates\x00\x8a\x00",
        b"\x00\x00\x030\x00\x82\x00\x00\x00\x03q\x00\x05\x00\x00\x00\x00\x03u\x00r\x00\x00",
        b"\x00\x03$set\x00g\x00\x00\x00\x03a\x00_\x00\x00\x00\x05b\x00R\x00\x00\x00\x06",
        AB,
        b"\x00\x00\x00\x00\x00\x02$db\x00\x03\x00\x00\x00hr\x00\x00",
    ],
};

/// An insert as a driver sends it, with `_id`, a session and other fields of no rule.
pub(crate) const FROM_A_DRIVER: Sample = Sample {
    collection: b"people",
    command: &[
        b"\xbd\x00\x00\x00\x02insert\x00\x07\x00\x00\x00people\x00\x08ordered\x00\x01\x03l",
        b"sid\x00\x1e\x00\x00\x00\x05id\x00\x10\x00\x00\x00\x04\x00\x11\x223DUFw\x88\x99",
        b"\xaa\xbb\xcc\xdd\xee\xff\x00\x12txnNumber\x00\x01\x00\x00\x00\x00\x00\x00\x00",
        b"\x04documents\x00M\x00\x00\x00\x030\x00E\x00\x00\x00\x07_id\x00\x00\x01\x02\x03",
        b"\x04\x05\x06\x07\x08\x09\x0a\x0b\x02name\x00\x04\x00\x00\x00Ada\x00\x02ssn\x00",
        b"\x0c\x00\x00\x00123-45-6789\x00\x10salary\x00p\x11\x01\x00\x00\x00\x02$db\x00",
        b"\x03\x00\x00\x00hr\x00\x00",
    ],
    marks: &[
        Mark {
            start: 146,
            end: 162,
            tag: 2,
            policy: 0,
            role: Role::Store,
            name: None,
        },
        Mark {
            start: 170,
            end: 174,
            tag: 16,
            policy: 1,
            role: Role::Store,
            name: None,
        },
    ],
    sealed: &[
        b"g\x01\x00\x00\x02insert\x00\x07\x00\x00\x00people\x00\x08ordered\x00\x01\x03lsid",
        b"\x00\x1e\x00\x00\x00\x05id\x00\x10\x00\x00\x00\x04\x00\x11\x223DUFw\x88\x99\xaa",
        b"\xbb\xcc\xdd\xee\xff\x00\x12txnNumber\x00\x01\x00\x00\x00\x00\x00\x00\x00\x04doc",
        b"uments\x00\xf7\x00\x00\x00\x030\x00\xef\x00\x00\x00\x07_id\x00\x00\x01\x02\x03",
        b"\x04\x05\x06\x07\x08\x09\x0a\x0b\x02name\x00\x04\x00\x00\x00Ada\x00\x05ssn\x00b",
        b"\x00\x00\x00\x06",
        SSN_PAYLOAD,
        b"\x05salary\x00R\x00\x00\x00\x06",
        SALARY_70000,
        b"\x00\x00\x02$db\x00\x03\x00\x00\x00hr\x00\x00",
    ],
};
