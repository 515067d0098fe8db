//! What a command's hooks were told, line by line.
ghost use Rattle.std.specs.Prelude.{Some};
ghost use Rattle.qcrun_parts.specs.Events.{Keeps, event_text};

use std::alloc::Allocator;
use std::fmt::{self, Display, Formatter, Write};

/// A call of a hook, with the pair that the hook was handed.
#[derive(Debug, Clone, Copy, PartialEq, Eq)]
pub enum Event {
    /// `before KEY VALUE`
    Before(u64, u64),
    /// `hot KEY VALUE`
    Hot(u64, u64),
    /// `cold KEY VALUE`
    Cold(u64, u64),
}

impl Display for Event {
    ghost output = { λ event. Some (event_text event) };

    fn fmt<W: Write>(&self, f: &mut Formatter<W>) -> fmt::Result {
        match self {
            Event::Before(key, value) => write!(f, "before {key} {value}"),
            Event::Hot(key, value) => write!(f, "hot {key} {value}"),
            Event::Cold(key, value) => write!(f, "cold {key} {value}"),
        }
    }
}

/// The events of a command in their order, or none of them where there was no memory for one.
pub type Events<A> = Option<Vec<Event, A>>;

/// The events, with one more behind them.
pub(crate) fn kept<A: Allocator>(events: Events<A>, event: Event) -> Events<A>
    ensures keeps { Keeps events event result }
{
    let mut events = events?;
    match events.push(event) {
        Ok(()) => Some(events),
        Err(_) => None,
    }
}
