//! What an event was answered, in a file.

ghost use Rattle.std.specs.Prelude.{◌≡◌, ◌==◌, find};
ghost use Rattle.lsr_facts.specs.Refusals.{number_of};
ghost use Rattle.journal_files.specs.Replies.{refusal_by, reply_parts};

use body_fields::put_byte;
use field_bytes::{
    Both, Byte, Choice, Field, Made, Making, Nothing, OneOf, Only, Pair, Put, ReadFault, Short,
    Writing,
};
use lsr_facts::{Refusal, Reply, RsvpError};
use rsvp_contents::Dropped;
use std::alloc::{AllocError, Global};

/// The refusals that a number names. Of the two whose number is 40 it is [`Refusal::NoMemory`].
pub const REFUSALS: [Refusal; 32] = [
    Refusal::Unread(Dropped::Short),
    Refusal::Unread(Dropped::Version),
    Refusal::Unread(Dropped::LengthField),
    Refusal::Unread(Dropped::Checksum),
    Refusal::Unread(Dropped::ObjectLength),
    Refusal::Unread(Dropped::MissingObject),
    Refusal::Unread(Dropped::KindUnsupported),
    Refusal::Unread(Dropped::Integrity),
    Refusal::Unread(Dropped::TooLong),
    Refusal::NoMatch,
    Refusal::NoMerge,
    Refusal::LinkDown,
    Refusal::HopLimit,
    Refusal::NoLabel,
    Refusal::UnknownTunnel,
    Refusal::TunnelExists,
    Refusal::BadRoute,
    Refusal::ChangePending,
    Refusal::UnknownLink,
    Refusal::BypassExists,
    Refusal::BypassOnItsLink,
    Refusal::Full,
    Refusal::InUse,
    Refusal::Late,
    Refusal::BadMoment,
    Refusal::BadCapacity,
    Refusal::NoMemory,
    Refusal::JournalFull,
    Refusal::IsCold,
    Refusal::WrongPort,
    Refusal::NoFrame,
    Refusal::NoRouter,
];

/// Whether the refusal has this number.
fn has_number(refusal: &Refusal, number: u8) -> bool
    ensures { result ≡ (number_of refusal.now == number) }
{
    refusal.number() == number
}

/// The first of these refusals that has this number.
fn refusal_in(refusals: &[Refusal], number: u8) -> Option<Refusal>
    ensures { result ≡ find (λ refusal. number_of refusal == number) refusals.now }
{
    refusals
        .iter()
        .find(|refusal| has_number(refusal, number))
        .copied()
}

/// The refusal of this number.
fn refusal_by(number: u8) -> Option<Refusal>
    ensures { result ≡ refusal_by number }
{
    refusal_in(&REFUSALS, number)
}

/// How a refusal is spelled: by its number.
pub struct RefusalParts;

/// Why something was refused.
pub type RefusalField = Made<RefusalParts>;

impl Making for RefusalParts {
    ghost use Rattle.std.specs.Prelude.{refl};
    ghost use Rattle.lsr_facts.specs.Refusals.{number_of};
    ghost use Rattle.journal_files.specs.Replies.{IsNamed, refusal_bytes, refusal_told};

    type Parts = Byte;

    type Whole = Refusal;

    ghost Allows = { IsNamed };

    ghost back = { number_of };

    ghost spelling = { refusal_bytes };

    ghost told = { refusal_told };

    ghost spelled = { λ refusal. refl };

    #[tactic(auto, using(crate::specs::Replies::named_by, crate::specs::Replies::not_named))]
    fn make(_alloc: Global, parts: u8) -> Result<Refusal, ReadFault> {
        match refusal_by(parts) {
            Some(refusal) => Ok(refusal),
            None => Err(ReadFault::Format),
        }
    }
}

impl Writing for RefusalParts {
    #[tactic(auto, using(crate::proofs::Named::has_name))]
    fn put_parts(refusal: &Refusal, out: &mut Vec<u8>) -> Result<(), AllocError> {
        match refusal {
            Refusal::Unread(Dropped::NoMemory) => Err(AllocError),
            _ => put_byte(refusal.number(), out),
        }
    }
}

/// Stands before nothing, before an error, and before a refusal.
const REPLY_DONE: u8 = 0;

const REPLY_ERROR: u8 = 1;

const REPLY_REFUSED: u8 = 2;

/// What an event was answered: 0; 1, an error's code and its value; or 2 and a refusal.
pub struct ReplyField;

/// The kinds of replies.
type ReplyParts = Choice<
    0,
    Both<1, Only<Nothing>, Both<1, Only<Pair<Byte, Short>>, Only<RefusalField>>>,
>;

/// The reply of these.
fn reply_of(parts: OneOf<(), OneOf<(u8, u16), Refusal>>) -> Reply
    ensures { reply_parts result ≡ parts }
{
    match parts {
        OneOf::This(()) => Reply::Done,
        OneOf::Other(OneOf::This((code, value))) => Reply::Error(RsvpError { code, value }),
        OneOf::Other(OneOf::Other(refusal)) => Reply::Refused(refusal),
    }
}

impl Field for ReplyField {
    ghost use Rattle.journal_files.specs.FileLaws.{one_reply};
    ghost use Rattle.journal_files.specs.Fitting.{ReplyFits};
    ghost use Rattle.journal_files.specs.Replies.{reply_bytes};

    type Value = Reply;

    ghost Fits = { ReplyFits };

    ghost spelling = { reply_bytes };

    ghost one = { one_reply };

    fn read(alloc: Global, bytes: &[u8]) -> Result<(Reply, &[u8]), ReadFault> {
        let (parts, rest) = <ReplyParts as Field>::read(alloc, bytes)?;
        Ok((reply_of(parts), rest))
    }
}

impl Put for ReplyField {
    fn put(reply: &Reply, out: &mut Vec<u8>) -> Result<(), AllocError> {
        match reply {
            Reply::Done => put_byte(REPLY_DONE, out),
            Reply::Error(error) => {
                put_byte(REPLY_ERROR, out)?;
                put_byte(error.code, out)?;
                Short::put(&error.value, out)
            }
            Reply::Refused(refusal) => {
                put_byte(REPLY_REFUSED, out)?;
                RefusalField::put(refusal, out)
            }
        }
    }
}
