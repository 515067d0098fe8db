//! What is printed for a reply.
ghost use Rattle.std.specs.Prelude.{◌≡◌, Some};
ghost use Rattle.qcrun_parts.specs.Answers.{answer_of, text_of};

use quick_cache_model::{Refusal, Reply};
use quick_cache_options::options::Error;
use std::fmt::{self, Display, Formatter, Write};

/// The printed answer to a command.
#[derive(Debug, Drop)]
pub enum Answer {
    /// `ok`
    Done,
    /// `some VALUE`
    Value(u64),
    /// `some KEY VALUE`
    Pair(u64, u64),
    /// `not admitted KEY VALUE`
    NotAdmitted(u64, u64),
    /// `none`
    Nothing,
    /// `reads COUNT`
    Reads(u64),
    /// `hits COUNT misses COUNT`
    LookUps(u64, u64),
    /// `loaded`
    Loaded,
    /// `not kept`
    NotKept,
    /// `error`
    Failed,
    /// `filled`
    Filled,
    /// `dropped`
    Dropped,
    /// `refused` and why.
    Refused(Refusal),
    /// `options: ` and what is wrong with them.
    Fault(Error),
}

impl From<Reply<u64, u64>> for Answer {
    ghost from_gives = { λ reply answer. answer ≡ answer_of reply };

    fn from(reply: Reply<u64, u64>) -> Answer {
        match reply {
            Reply::Done => Answer::Done,
            Reply::RefusedPair(_, _, refusal) => Answer::Refused(refusal),
            Reply::NotAdmitted(key, value) => Answer::NotAdmitted(key, value),
            Reply::Value(Some(value)) => Answer::Value(value),
            Reply::Value(None) => Answer::Nothing,
            Reply::Flag(true) => Answer::Done,
            Reply::Flag(false) => Answer::Nothing,
            Reply::Stats(Some(reads)) => Answer::Reads(reads),
            Reply::Stats(None) => Answer::Nothing,
            Reply::Pair(Some((key, value))) => Answer::Pair(key, value),
            Reply::Pair(None) => Answer::Nothing,
            Reply::Found(value) => Answer::Value(value),
            Reply::Loaded(true) => Answer::Loaded,
            Reply::Loaded(false) => Answer::NotKept,
            Reply::LoadFailed => Answer::Failed,
            Reply::Filled => Answer::Filled,
            Reply::Dropped => Answer::Dropped,
            // No command asks for pairs.
            Reply::Pairs(_) => Answer::Done,
            Reply::Counts { hits, misses, .. } => Answer::LookUps(hits, misses),
            Reply::Refused(refusal) => Answer::Refused(refusal),
        }
    }
}

impl Display for Answer {
    ghost output = { λ answer. Some (text_of answer) };

    fn fmt<W: Write>(&self, f: &mut Formatter<W>) -> fmt::Result {
        match self {
            Answer::Done => f.write_str("ok"),
            Answer::Value(value) => write!(f, "some {value}"),
            Answer::Pair(key, value) => write!(f, "some {key} {value}"),
            Answer::NotAdmitted(key, value) => write!(f, "not admitted {key} {value}"),
            Answer::Nothing => f.write_str("none"),
            Answer::Reads(reads) => write!(f, "reads {reads}"),
            Answer::LookUps(hits, misses) => write!(f, "hits {hits} misses {misses}"),
            Answer::Loaded => f.write_str("loaded"),
            Answer::NotKept => f.write_str("not kept"),
            Answer::Failed => f.write_str("error"),
            Answer::Filled => f.write_str("filled"),
            Answer::Dropped => f.write_str("dropped"),
            Answer::Refused(Refusal::Memory) => f.write_str("refused memory"),
            Answer::Refused(Refusal::SlotsFull) => f.write_str("refused slots"),
            Answer::Refused(Refusal::TicketsSpent) => f.write_str("refused tickets"),
            Answer::Refused(Refusal::Finished) => f.write_str("refused finished"),
            Answer::Fault(error) => write!(f, "options: {error}"),
        }
    }
}
