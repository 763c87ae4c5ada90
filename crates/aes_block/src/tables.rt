// The tables of 16 entries by which a block is encrypted, and the positions of its shuffles (FIPS 197, 5.1).
//
// GF(2^4) is that of z^4 + z + 1, a root of which is the byte 5c; a is that root, the nibble 2, and t is the byte b2,
// a root of t^2 + a t + a.

// 1/x in GF(2^4), where 80 is infinity.
pub(crate) const INVERSE: [u8; 16] = [
    0x80, 0x01, 0x09, 0x0e, 0x0d, 0x0b, 0x07, 0x06, 0x0f, 0x02, 0x0c, 0x05, 0x0a, 0x04, 0x03, 0x08,
];

// a/x.
pub(crate) const RATIO: [u8; 16] = [
    0x80, 0x02, 0x01, 0x0f, 0x09, 0x05, 0x0e, 0x0c, 0x0d, 0x04, 0x0b, 0x0a, 0x07, 0x08, 0x06, 0x03,
];

// Into the basis: the lower nibble, then the upper.
pub(crate) const INTO_LOW: [u8; 16] = [
    0x00, 0x01, 0x1c, 0x1d, 0x2d, 0x2c, 0x31, 0x30, 0x27, 0x26, 0x3b, 0x3a, 0x0a, 0x0b, 0x16, 0x17,
];

pub(crate) const INTO_HIGH: [u8; 16] = [
    0x00, 0x86, 0xfd, 0x7b, 0x8e, 0x08, 0x73, 0xf5, 0x77, 0xf1, 0x8a, 0x0c, 0xf9, 0x7f, 0x04, 0x82,
];

// The entry of the S-box without 63, in the basis, at u and at v.
pub(crate) const ONE_U: [u8; 16] = [
    0x00, 0xc3, 0x4f, 0x0c, 0xfc, 0x7c, 0x43, 0x80, 0xcf, 0x33, 0x3f, 0x70, 0xbf, 0xb3, 0xf0, 0x8c,
];

pub(crate) const ONE_V: [u8; 16] = [
    0x00, 0xe6, 0x72, 0xb7, 0xe5, 0xc6, 0xc5, 0x23, 0x51, 0xb4, 0x03, 0x71, 0x20, 0x97, 0x52, 0x94,
];

// Twice that.
pub(crate) const TWO_U: [u8; 16] = [
    0x00, 0x7c, 0x20, 0xcf, 0x92, 0x01, 0xef, 0x93, 0xb3, 0x21, 0xee, 0xce, 0x7d, 0xb2, 0x5d, 0x5c,
];

pub(crate) const TWO_V: [u8; 16] = [
    0x00, 0xd1, 0xe5, 0xf7, 0xe6, 0x25, 0x12, 0xc3, 0x26, 0xc0, 0x37, 0xd2, 0xf4, 0x03, 0x11, 0x34,
];

// The same as a byte, for the last round.
pub(crate) const LAST_U: [u8; 16] = [
    0x00, 0xcb, 0xd7, 0xb0, 0x21, 0x8d, 0x67, 0xac, 0x7b, 0x5a, 0xea, 0x3d, 0x46, 0xf6, 0x91, 0x1c,
];

pub(crate) const LAST_V: [u8; 16] = [
    0x00, 0x9f, 0x61, 0x16, 0xc2, 0x2a, 0x77, 0xe8, 0x89, 0x4b, 0x5d, 0x3c, 0xb5, 0xa3, 0xd4, 0xfe,
];

// Positions for the rounds r with r % 4 = 1, 2, 3, 0: one row below, three rows below, and the places of the state's
// bytes behind the round.
pub(crate) const TURN_1: [usize; 16] = [5, 6, 7, 4, 9, 10, 11, 8, 13, 14, 15, 12, 1, 2, 3, 0];

pub(crate) const BACK_1: [usize; 16] = [15, 12, 13, 14, 3, 0, 1, 2, 7, 4, 5, 6, 11, 8, 9, 10];

pub(crate) const PLACES_1: [usize; 16] = [0, 13, 10, 7, 4, 1, 14, 11, 8, 5, 2, 15, 12, 9, 6, 3];

pub(crate) const TURN_2: [usize; 16] = [9, 10, 11, 8, 13, 14, 15, 12, 1, 2, 3, 0, 5, 6, 7, 4];

pub(crate) const BACK_2: [usize; 16] = [11, 8, 9, 10, 15, 12, 13, 14, 3, 0, 1, 2, 7, 4, 5, 6];

pub(crate) const PLACES_2: [usize; 16] = [0, 9, 2, 11, 4, 13, 6, 15, 8, 1, 10, 3, 12, 5, 14, 7];

pub(crate) const TURN_3: [usize; 16] = [13, 14, 15, 12, 1, 2, 3, 0, 5, 6, 7, 4, 9, 10, 11, 8];

pub(crate) const BACK_3: [usize; 16] = [7, 4, 5, 6, 11, 8, 9, 10, 15, 12, 13, 14, 3, 0, 1, 2];

pub(crate) const PLACES_3: [usize; 16] = [0, 5, 10, 15, 4, 9, 14, 3, 8, 13, 2, 7, 12, 1, 6, 11];

pub(crate) const TURN_4: [usize; 16] = [1, 2, 3, 0, 5, 6, 7, 4, 9, 10, 11, 8, 13, 14, 15, 12];

pub(crate) const BACK_4: [usize; 16] = [3, 0, 1, 2, 7, 4, 5, 6, 11, 8, 9, 10, 15, 12, 13, 14];

pub(crate) const PLACES_0: [usize; 16] = [0, 1, 2, 3, 4, 5, 6, 7, 8, 9, 10, 11, 12, 13, 14, 15];

// The places of the last round, which brings each byte home.
pub(crate) const LAST_PLACES: [usize; 16] = [0, 9, 2, 11, 4, 13, 6, 15, 8, 1, 10, 3, 12, 5, 14, 7];

pub(crate) const LAST_KEY: [usize; 16] = [0, 9, 2, 11, 4, 13, 6, 15, 8, 1, 10, 3, 12, 5, 14, 7];
