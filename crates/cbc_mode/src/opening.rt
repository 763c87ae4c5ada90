//! Decryption (SP 800-38A, 6.2).

ghost use Rattle.std.specs.Prelude.{◌≡◌, ◌≢◌, ◌+◌, ◌-◌, ◌*◌, ◌%◌, ◌<◌, ◌≤◌, ◌↔◌, ◌++◌, drop};
ghost use Rattle.std.specs.Prelude.{IfOk, IsTrue, length, List, take, ℕ};
ghost use Rattle.cbc_mode.specs.Cbc.{cbc_opened, opened_blocks, IsWholeBlocks};
ghost use Rattle.cbc_mode.specs.Padding.{pad};

use crate::blocks::{BLOCK, block_at, put, xored};
use crate::padding::plain_len;
use aes_block::Schedule;
use crypto_hooks::Block256;

/// Why a sealed message isn't opened, in the order in which it is judged.
#[derive(Clone, Copy, Debug, PartialEq, Eq)]
pub enum CbcFault {
    /// The length is 0 or no multiple of 16.
    Blocks,
    /// The opened blocks don't end in a right padding.
    Padding,
}

/// Decrypts the sealed bytes into `out`, which is at least as long, and answers how many of them
/// are plain text.
///
/// With `Blocks` nothing of `out` is changed. With `Padding` the opened blocks stand in `out`,
/// padding included, as they do otherwise. What lies behind them is never changed.
pub fn cbc_open_into<B: Block256>(
    hooks: &B,
    schedule: &Schedule,
    iv: [u8; 16],
    sealed: &[u8],
    out: &mut [u8],
) -> Result<usize, CbcFault>
    requires hooks { B.answers hooks.now }
    requires room { length sealed.now ≤ length out.old }
    ensures blocks { (result ≡ Err CbcFault.Blocks) ↔ (¬ IsWholeBlocks (length sealed.now)) }
    ensures unchanged { result ≡ Err CbcFault.Blocks → out.new ≡ out.old }
    ensures padding { (result ≡ Err CbcFault.Padding) ↔ (IsWholeBlocks (length sealed.now)
        × ((p : List ℕ) → cbc_opened schedule.now iv sealed.now ≢ pad p)) }
    ensures whole { IfOk result (λ _. IsWholeBlocks (length sealed.now)) }
    ensures shorter { IfOk result (λ n. n < length sealed.now) }
    ensures plain { IfOk result (λ n. cbc_opened schedule.now iv sealed.now ≡ pad (take n out.new)) }
    ensures opened { IsWholeBlocks (length sealed.now)
        → take (length sealed.now) out.new ≡ cbc_opened schedule.now iv sealed.now }
    ensures behind { drop (length sealed.now) out.new ≡ drop (length sealed.now) out.old }
{
    if !is_whole_blocks(sealed.len()) {
        return Err(CbcFault::Blocks);
    }
    open_blocks(hooks, schedule, iv, sealed, out);
    match plain_len(&out[..sealed.len()]) {
        Some(n) => Ok(n),
        None => Err(CbcFault::Padding),
    }
}

/// Whether a length is one or more whole blocks.
fn is_whole_blocks(n: usize) -> bool
    ensures { IsTrue result ↔ IsWholeBlocks n }
{
    n > 0 && n % BLOCK == 0
}

/// Decrypts whole blocks into the front of `out`, two at a time.
fn open_blocks<B: Block256>(
    hooks: &B,
    schedule: &Schedule,
    iv: [u8; 16],
    sealed: &[u8],
    out: &mut [u8],
)
    requires hooks { B.answers hooks.now }
    requires whole { length sealed.now % 16 ≡ 0 }
    requires room { length sealed.now ≤ length out.old }
    ensures opened { take (length sealed.now) out.new ≡ cbc_opened schedule.now iv sealed.now }
    ensures behind { drop (length sealed.now) out.new ≡ drop (length sealed.now) out.old }
{
    let count = sealed.len() / BLOCK;
    let mut before = iv;
    for i in 0..count / 2 {
        let next = open_pair(hooks, schedule, sealed, 2 * i, before, out);
        before = next;
    }
    if count % 2 == 1 {
        open_last(hooks, schedule, sealed, count - 1, before, out);
    }
}

/// Decrypts the blocks i and i + 1, of which block i follows the block `before`, and answers block i + 1.
fn open_pair<B: Block256>(
    hooks: &B,
    schedule: &Schedule,
    sealed: &[u8],
    i: usize,
    before: [u8; 16],
    out: &mut [u8],
) -> [u8; 16]
    requires hooks { B.answers hooks.now }
    requires inside { 16 * (i + 2) ≤ length sealed.now }
    requires room { length sealed.now ≤ length out.old }
    ensures opened { (n : ℕ) (whole : List ℕ) → i + 1 < n
        → take (16 * i) out.old ++ opened_blocks schedule.now (n - i) before (drop (16 * i) sealed.now) ≡ whole
        → take (16 * (i + 2)) out.new
        ++ opened_blocks schedule.now (n - (i + 2)) result (drop (16 * (i + 2)) sealed.now) ≡ whole }
    ensures behind { drop (length sealed.now) out.new ≡ drop (length sealed.now) out.old }
{
    let first = block_at(sealed, BLOCK * i);
    let second = block_at(sealed, BLOCK * (i + 1));
    let (a, b) = hooks.open_two(schedule, first, second);
    put(out, BLOCK * i, xored(a, before));
    put(out, BLOCK * (i + 1), xored(b, first));
    second
}

/// Decrypts block i, the last, which follows the block `before`.
fn open_last<B: Block256>(
    hooks: &B,
    schedule: &Schedule,
    sealed: &[u8],
    i: usize,
    before: [u8; 16],
    out: &mut [u8],
)
    requires hooks { B.answers hooks.now }
    requires last { length sealed.now ≡ 16 * (i + 1) }
    requires room { length sealed.now ≤ length out.old }
    ensures opened { (whole : List ℕ)
        → take (16 * i) out.old ++ opened_blocks schedule.now 1 before (drop (16 * i) sealed.now) ≡ whole
        → take (length sealed.now) out.new ≡ whole }
    ensures behind { drop (length sealed.now) out.new ≡ drop (length sealed.now) out.old }
{
    let block = block_at(sealed, BLOCK * i);
    put(
        out,
        BLOCK * i,
        xored(hooks.open_block(schedule, block), before),
    );
}
