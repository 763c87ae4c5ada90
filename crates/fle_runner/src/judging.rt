//! The judges of a stream: what becomes of a document by itself is what is said of it there.

ghost use Rattle.std.specs.Prelude.{◌≡◌, ⊤, Option};
ghost use Rattle.bson_tree.specs.Tree.{Items};
ghost use Rattle.context_machine.specs.Rings.{finder, ring};
ghost use Rattle.encrypt_schema.specs.Commands.Visits.{Refusal};
ghost use Rattle.fle_engine.specs.Answers.{AnswerIs};
ghost use Rattle.fle_engine.specs.Checking.{AcceptsAs, TakesAs};
ghost use Rattle.fle_engine.specs.Rulings.{Ruling};
ghost use Rattle.fle_outside.specs.Seen.{EntropySeen};
ghost use Rattle.fle_runner.specs.Decrypt.{decrypt_verdict};
ghost use Rattle.fle_runner.specs.Encrypt.{encrypt_verdict};
ghost use Rattle.fle_runner.specs.EncryptWith.{encrypt_pairing, refused_as, wrong_as, wrong_number};
ghost use Rattle.fle_runner.specs.Mark.{mark_verdict};
ghost use Rattle.fle_runner.specs.Verdicts.{as_verdict};
ghost use Rattle.fle_stream.specs.Check.{CheckIs};
ghost use Rattle.fle_stream.specs.Judge.{JudgeIs};
ghost use Rattle.reply_check.specs.declared.wrong.WrongReply.{WrongReply as AnyWrong};

use bson_codec::RawDoc;
use crypto_hooks::Block256;
use fle_engine::{Answer, Declined, Engine, Marker, Opener, Untaken};
use fle_files::number_of_reason;
use fle_outside::Entropy;
use fle_stream::{Checked, Judge, Judged, Number, PairJudge};
use reply_check::WrongReply;
use std::alloc::Global;

/// The reason of a reply that lacks an element that is read, or has one twice or of another type.
pub const REPLY_SHAPE: u8 = 25;

/// The reason of a reply that differs from the right one.
pub const REPLY_DIFFERS: u8 = 26;

/// The reason of a command behind which no reply stands.
pub const REPLY_MISSING: u8 = 27;

/// Each command is marked.
#[derive(Drop)]
pub struct Marking {
    /// What marks it.
    pub marker: Marker,
}

impl Judge for Marking {
    ghost verdict = { λ s command. mark_verdict s.marker.infos s.marker.db.items command };

    ghost ready = { λ _. ⊤ };

    fn judge<N: Entropy>(
        &mut self,
        alloc: Global,
        document: &RawDoc<'_>,
        _entropy: &mut N,
    ) -> Judged {
        judgement(self.marker.mark(alloc, document))
    }
}

/// Each command is sealed.
#[derive(Drop)]
pub struct Sealing<'a, B> {
    /// What seals it.
    pub engine: Engine,
    /// The block cipher.
    pub hooks: &'a B,
}

impl<B: Block256> Judge for Sealing<'_, B> {
    ghost verdict = { λ s command. encrypt_verdict (finder s.engine.opener.keys s.engine.opener.cache.master)
        s.engine.marker.infos s.engine.marker.db.items command };

    ghost ready = { λ s. B.answers s.hooks.now };

    fn judge<N: Entropy>(
        &mut self,
        alloc: Global,
        document: &RawDoc<'_>,
        entropy: &mut N,
    ) -> Judged {
        judgement(self.engine.seal(alloc, self.hooks, document, entropy))
    }
}

/// Each command is sealed, once the marking reply behind it was found right.
#[derive(Drop)]
pub struct Answering<'a, B> {
    /// What checks replies and seals commands.
    pub engine: Engine,
    /// The block cipher.
    pub hooks: &'a B,
}

impl<B: Block256> PairJudge for Answering<'_, B> {
    ghost pairing = { λ s. encrypt_pairing (finder s.engine.opener.keys s.engine.opener.cache.master)
        s.engine.marker.infos s.engine.marker.db.items };

    ghost ready = { λ s. B.answers s.hooks.now };

    fn missing(&self) -> Number {
        Number {
            value: REPLY_MISSING,
        }
    }

    fn open(&self, alloc: Global, document: &RawDoc<'_>) -> Checked {
        opening_check(self.engine.marker.accept(alloc, document))
    }

    fn answer(&self, alloc: Global, document: &RawDoc<'_>, answer: &RawDoc<'_>) -> Checked {
        answer_check(self.engine.marker.take(alloc, document, answer))
    }

    fn judge<N: Entropy>(
        &mut self,
        alloc: Global,
        document: &RawDoc<'_>,
        entropy: &mut N,
    ) -> Judged {
        judgement(self.engine.seal(alloc, self.hooks, document, entropy))
    }
}

/// Each document is opened.
#[derive(Drop)]
pub struct Opening<'a, B> {
    /// What opens it.
    pub opener: Opener,
    /// The block cipher.
    pub hooks: &'a B,
}

impl<B: Block256> Judge for Opening<'_, B> {
    ghost verdict = { λ s document. decrypt_verdict (ring s.opener.keys s.opener.cache.master) document };

    ghost ready = { λ s. B.answers s.hooks.now };

    fn judge<N: Entropy>(
        &mut self,
        alloc: Global,
        document: &RawDoc<'_>,
        _entropy: &mut N,
    ) -> Judged {
        judgement(self.opener.open(alloc, self.hooks, document))
    }
}

/// What is said of a document in a stream, of which an engine answered this.
fn judgement(answer: Answer) -> Judged
    ensures judged { (v : Ruling) (c : Items) (before after : EntropySeen) → AnswerIs v c before after answer
        → JudgeIs (as_verdict c v) before after result }
{
    match answer {
        Answer::Made(output) => Judged::Written(output),
        Answer::Refused(refused) => {
            Judged::Refused(number_of_reason(refused.reason), refused.place)
        }
        Answer::TooLong => Judged::TooLong,
        Answer::Undrawn(_) => Judged::Undrawn,
        Answer::Memory => Judged::Memory,
    }
}

/// What is said of a command in a stream that is or isn't accepted by itself.
fn opening_check(answer: Result<(), Declined>) -> Checked
    ensures checks { (refusal : Option Refusal) (c : Items) → AcceptsAs refusal c answer
        → CheckIs (refused_as c refusal) result }
{
    match answer {
        Ok(()) => Checked::Passes,
        Err(Declined::Refused(refused)) => {
            Checked::Refused(number_of_reason(refused.reason), refused.place)
        }
        Err(Declined::Memory) => Checked::Memory,
    }
}

/// What is said of a reply in a stream that is or isn't the right one.
fn answer_check(answer: Result<(), Untaken>) -> Checked
    ensures checks { (wrong : Option AnyWrong) (r : Items) → TakesAs wrong r answer
        → CheckIs (wrong_as r wrong) result }
{
    match answer {
        Ok(()) => Checked::Passes,
        Err(Untaken::Wrong(wrong, place)) => Checked::Refused(number_of_wrong(wrong), place),
        Err(Untaken::Memory) => Checked::Memory,
    }
}

/// The number of the reason for which a reply isn't the right one.
fn number_of_wrong(wrong: WrongReply) -> Number
    ensures number { result ≡ wrong_number wrong }
{
    match wrong {
        WrongReply::Shape { .. } => Number { value: REPLY_SHAPE },
        WrongReply::Differs { .. } => Number {
            value: REPLY_DIFFERS,
        },
    }
}
