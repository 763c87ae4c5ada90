//! What a call tells its caller.

ghost use Rattle.std.specs.Prelude.{◌≡◌, IfOk, List, ℕ};
ghost use Rattle.fle_c.specs.Calls.{AreAskedFew, ShowsAsked, ShowsReply};
ghost use Rattle.fle_c.specs.Telling.{AreCounted, Shows, answer_told, bare, done, fault_told, made_out, made_told};
ghost use Rattle.fle_c.specs.Telling.{malformed, passed, random_of, random_wanted, refused_told, reply_random};
ghost use Rattle.fle_c.specs.Telling.{room_wanted, sized, unanswered_told};
ghost use Rattle.fle_engine.specs.declared.answer.Answer.TheVariants as answers;

use crate::blocks::BLOCK;
use bson_codec::BsonFault;
use encrypt_schema::Reason;
use fle_client::NoAnswer;
use fle_engine::{Answer, Asked, EngineFault, Refused};

/// The status of a command for which fewer blocks were handed in than it draws.
const NO_BLOCKS: u32 = 7;

/// The status of a document whose answer has less room than it wants.
const NO_ROOM: u32 = 10;

/// The status of a call at a slot that no client is in, or one without the master key that it needs.
const NOT_OPEN: u32 = 11;

/// The status of a call that names a key by an id without 16 bytes.
const NO_ID: u32 = 12;

/// The status of a command of whose collection the client wasn't told.
const NO_INFO: u32 = 13;

/// The status of a call with a flag that has no meaning.
const NO_FLAG: u32 = 15;

/// What a call tells its caller: numbers of the program's line, the length of an output, and its random bytes.
#[repr(C)]
#[derive(Clone, Copy, Drop)]
pub struct Told {
    /// The status, from 0 to 9 as the program's.
    pub status: u32,
    /// What was wrong: a reason, or the number of a fault or of a limit.
    pub reason: u32,
    /// The file at fault, from 1 in the order of the arguments.
    pub file: u32,
    /// Where: the offset of the refused value or of the fault, or the number of the faulty document.
    pub place: usize,
    /// The bytes that were written, or the room that is wanted.
    pub length: usize,
    /// The random bytes that were used, or are wanted.
    pub random: usize,
}

impl Told {
    /// A status that has nothing else to tell.
    fn bare(status: u32) -> Told
        ensures told { result ≡ bare status }
    {
        Told {
            status,
            reason: 0,
            file: 0,
            place: 0,
            length: 0,
            random: 0,
        }
    }

    /// A status with an output's length, and with the random bytes that it takes.
    fn sized(status: u32, length: usize, random: usize) -> Told
        ensures told { result ≡ sized status length random }
    {
        Told {
            status,
            reason: 0,
            file: 0,
            place: 0,
            length,
            random,
        }
    }

    /// An output of so many bytes is written, and so many random bytes were used.
    pub(crate) fn done(length: usize, random: usize) -> Told
        ensures told { result ≡ done length random }
    {
        Told::sized(0, length, random)
    }

    /// Too few random bytes were handed in: an output of so many bytes wants so many.
    fn random_wanted(length: usize, random: usize) -> Told
        ensures told { result ≡ random_wanted length random }
    {
        Told::sized(NO_BLOCKS, length, random)
    }

    /// No client is in the slot, or it has no master key.
    pub(crate) fn not_open() -> Told
        ensures told { result ≡ bare 11 }
    {
        Told::bare(NOT_OPEN)
    }

    /// The id of a key hasn't 16 bytes.
    pub(crate) fn no_id() -> Told
        ensures told { result ≡ bare 12 }
    {
        Told::bare(NO_ID)
    }

    /// A flag is set that has no meaning.
    pub(crate) fn no_flag() -> Told
        ensures told { result ≡ bare 15 }
    {
        Told::bare(NO_FLAG)
    }

    /// A client has no answer to a command.
    fn unanswered(why: NoAnswer) -> Told
        ensures told { result ≡ unanswered_told why }
    {
        match why {
            NoAnswer::NoMaster => Told::not_open(),
            NoAnswer::NoInfo => Told::bare(NO_INFO),
        }
    }

    /// There was no memory.
    pub(crate) fn no_memory() -> Told
        ensures told { result ≡ bare 8 }
    {
        Told::bare(8)
    }

    /// An output of so many bytes, which wants so many random bytes, has too little room.
    fn room_wanted(length: usize, random: usize) -> Told
        ensures told { result ≡ room_wanted length random }
    {
        Told::sized(NO_ROOM, length, random)
    }

    /// The limit of this number is passed.
    pub(crate) fn passed(limit: u32) -> Told
        ensures told { result ≡ passed limit }
    {
        Told {
            status: 9,
            reason: limit,
            file: 0,
            place: 0,
            length: 0,
            random: 0,
        }
    }

    /// The bytes are no document.
    pub(crate) fn malformed(fault: BsonFault) -> Told
        ensures told { result ≡ malformed fault }
    {
        Told {
            status: 3,
            reason: fault.kind.number() as u32,
            file: 0,
            place: fault.offset,
            length: 0,
            random: 0,
        }
    }

    /// There is no client for this fault, or a document doesn't fill one.
    pub(crate) fn fault(fault: EngineFault) -> Told
        ensures told { result ≡ fault_told fault }
    {
        match fault {
            EngineFault::Database => Told::bare(2),
            EngineFault::File {
                file,
                fault,
                document,
            } => Told {
                status: 4,
                reason: fault.code() as u32,
                file: file as u32,
                place: document as usize,
                length: 0,
                random: 0,
            },
            EngineFault::Memory => Told::bare(8),
        }
    }

    /// The document is refused.
    fn refused(refused: &Refused) -> Told
        ensures told { (random : ℕ) (room : List ℕ) → result ≡ answer_told random room (answers.Refused refused.now) }
    {
        Told::refused_at(refused.reason, refused.at)
    }

    /// A document is refused, for a reason, at an offset.
    pub(crate) fn refused_at(reason: Reason, at: u32) -> Told
        ensures told { result ≡ refused_told reason at }
    {
        Told {
            status: 1,
            reason: reason.code() as u32,
            file: 0,
            place: at as usize,
            length: 0,
            random: 0,
        }
    }
}

/// What became of a document, with so many random bytes; its output is written where it fits, and nothing else is.
pub(crate) fn tell(answer: &Answer, random: usize, out: &mut [u8]) -> Told
    ensures shows { Shows random answer.now out.old out.new result }
{
    match answer {
        Answer::Made(output) => put(output, random, out),
        Answer::Refused(refused) => Told::refused(refused),
        Answer::TooLong => Told::passed(2),
        Answer::Undrawn(wanted) => Told::random_wanted(wanted.size, random),
        Answer::Memory => Told::bare(8),
    }
}

/// What a client answers, with so many random bytes; or that it has no answer, and then nothing is written.
pub(crate) fn tell_reply(reply: &Result<Answer, NoAnswer>, random: usize, out: &mut [u8]) -> Told
    ensures shows { ShowsReply random reply.now out.old out.new result }
{
    match reply {
        Ok(answer) => tell(answer, random, out),
        Err(why) => Told::unanswered(*why),
    }
}

/// The keys that a client asks for, with the random bytes that the command wants; or that it has no answer.
pub(crate) fn tell_asked(asked: &Result<Asked, NoAnswer>, out: &mut [u8]) -> Told
    requires few { AreAskedFew asked.now }
    ensures shows { ShowsAsked asked.now out.old out.new result }
{
    match asked {
        Ok(asked) => tell(&asked.answer, BLOCK * asked.draws, out),
        Err(why) => Told::unanswered(*why),
    }
}

/// The random bytes of what a client answers, as of an answer, where it does; else none.
pub(crate) fn reply_random(reply: &Result<Answer, NoAnswer>, handed: usize, left: usize) -> usize
    requires counted { IfOk reply.now AreCounted }
    ensures random { result ≡ reply_random reply.now handed left }
{
    match reply {
        Ok(answer) => random_of(answer, handed, left),
        Err(_) => 0,
    }
}

/// The random bytes of an answer: of an output those that were used, by the number of bytes that were handed in and of
/// those that are left; those that are wanted where there were too few; else none.
pub(crate) fn random_of(answer: &Answer, handed: usize, left: usize) -> usize
    requires counted { AreCounted answer.now }
    ensures random { result ≡ random_of answer.now handed left }
{
    match answer {
        Answer::Made(_) => BLOCK * (handed / BLOCK).saturating_sub(left / BLOCK),
        Answer::Refused(_) => 0,
        Answer::TooLong => 0,
        Answer::Undrawn(wanted) => BLOCK * wanted.draws,
        Answer::Memory => 0,
    }
}

/// Writes an output into the front of `out`, where it fits.
fn put(output: &[u8], random: usize, out: &mut [u8]) -> Told
    ensures told { result ≡ made_told random out.old output.now }
    ensures out { out.new ≡ made_out out.old output.now }
{
    let wanted = output.len();
    if out.len() < wanted {
        return Told::room_wanted(wanted, random);
    }
    let (front, _) = out.split_at_mut(wanted);
    front.copy_from_slice(output);
    Told::done(wanted, random)
}
