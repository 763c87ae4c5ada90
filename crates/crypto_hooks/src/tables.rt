//! The cipher of this repository.

ghost use Rattle.std.specs.Prelude.{⊤};

use crate::block256::Block256;
use aes_block::{Schedule, cipher_tables, inv_cipher_tables, inv_cipher_tables_pair};

/// The cipher by look-ups in vector registers, in constant time, for callers that have none of their own.
#[derive(Clone, Copy)]
pub struct Tables;

impl Block256 for Tables {
    ghost answers = { λ _. ⊤ };

    fn seal_block(&self, schedule: &Schedule, block: [u8; 16]) -> [u8; 16] {
        cipher_tables(schedule, block)
    }

    fn open_block(&self, schedule: &Schedule, block: [u8; 16]) -> [u8; 16] {
        inv_cipher_tables(schedule, block)
    }

    fn open_two(
        &self,
        schedule: &Schedule,
        first: [u8; 16],
        second: [u8; 16],
    ) -> ([u8; 16], [u8; 16]) {
        inv_cipher_tables_pair(schedule, first, second)
    }
}
