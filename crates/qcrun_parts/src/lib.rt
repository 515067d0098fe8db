//! What `qcrun` does: the lines that it reads, the commands that they are and why some are none, its
//! cache of numbers, the calls that commands ask for, what is printed for them, and how lines are
//! served to their end.
#![tactic(auto)]

pub mod calls;
pub mod command;
pub mod events;
pub mod fault;
pub mod lines;
pub mod numbers;
pub mod reply;
pub mod serving;

pub use calls::make_call;
pub use command::{Command, command_of};
pub use events::{Event, Events};
pub use fault::{Fault, fault_of};
pub use lines::{Line, read_line};
pub use numbers::NumberCache;
pub use numbers::hash::RemainderBuilder;
pub use numbers::kinds::{ByKind, LastDigits};
pub use numbers::still::still;
pub use reply::Answer;
pub use serving::help::HELP;
pub use serving::serve;
pub use serving::session::{Outcome, Session};
