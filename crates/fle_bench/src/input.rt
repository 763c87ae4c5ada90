//! The message that is run over, and what one turn feeds the next with.

ghost use Rattle.std.specs.Prelude.{◌≡◌, ◌≤◌, length, IfOk};
ghost use Rattle.fle_bench.specs.Message.{message_bytes};
ghost use Rattle.fle_bench.specs.Turns.{last};

use std::alloc::{AllocError, Global};

/// A message whose bytes count up from 0 to 250, again and again.
pub fn message(alloc: Global, size: usize) -> Result<Vec<u8>, AllocError>
    ensures len { IfOk result (λ v. length v.items ≡ size) }
    ensures bytes { IfOk result (λ v. v.items ≡ message_bytes size) }
{
    let mut bytes = Vec::new(alloc);
    for i in 0..size {
        bytes.push((i % 251) as u8)?;
    }
    Ok(bytes)
}

/// The last block of a turn's answer.
pub fn last_block(bytes: &[u8]) -> [u8; 16]
    requires { 16 ≤ length bytes.now }
    ensures last { result ≡ last 16 bytes.now }
{
    let mut block = [0; 16];
    block.copy_from_slice(&bytes[bytes.len() - 16..]);
    block
}

/// The last 18 bytes of a turn's answer, as many as a value's associated data.
pub fn last_18(bytes: &[u8]) -> [u8; 18]
    requires { 18 ≤ length bytes.now }
    ensures last { result ≡ last 18 bytes.now }
{
    let mut end = [0; 18];
    end.copy_from_slice(&bytes[bytes.len() - 18..]);
    end
}
