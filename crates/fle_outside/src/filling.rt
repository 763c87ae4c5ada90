//! A piece filled from a source.

ghost use Rattle.std.specs.Prelude.{◌≡◌, ◌≤◌, List, ℕ, Some, true, length};
ghost use Rattle.fle_outside.specs.Counts.{Rose};
ghost use Rattle.fle_outside.specs.Filling.{FillCounts, FillTakes, FillWithin};

use crate::answers::ReadAnswer;
use crate::source::Source;

/// How filling a piece from a source ended.
#[derive(Clone, Copy, Debug, PartialEq, Eq)]
pub enum Fill {
    /// The piece is filled.
    Whole,
    /// The source ended after this many bytes, fewer than the piece has.
    Ended(usize),
    /// The source failed.
    Failed,
}

/// Fills a piece with the next bytes of a source, and reads no byte behind them.
pub fn fill_piece<S: Source>(source: &mut S, piece: &mut [u8]) -> Fill
    ensures bytes { (told : List ℕ) → (S.seen source.old).told ≡ Some told
        → FillTakes told (S.seen source.new).told result piece.new }
    ensures within { FillWithin result (length piece.new) }
    ensures counts { FillCounts (S.seen source.old).taken (S.seen source.new).taken result (length piece.new) }
    ensures later { (S.seen source.old).faults ≤ (S.seen source.new).faults }
    ensures cause { result ≡ Fill.Failed → Rose (S.seen source.old).faults (S.seen source.new).faults }
    ensures sure { (S.seen source.old).assured ≡ true
        → (result ≡ Fill.Failed → ⊥) × ((S.seen source.new).assured ≡ true) }
{
    let mut at = 0;
    while at < piece.len() {
        match source.read(&mut piece[at..]) {
            ReadAnswer::Took(n) => at += n,
            ReadAnswer::End => return Fill::Ended(at),
            ReadAnswer::Failed => return Fill::Failed,
        }
    }
    Fill::Whole
}
