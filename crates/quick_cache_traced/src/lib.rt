//! A cache that threads share behind one lock, which keeps the list of its calls and replies: a run
//! of the cache for one thread. Who makes calls has a seat, and seats count them.
#![tactic(auto)]

mod call;
mod gathering;
mod looks;
mod recorder;
mod seat;
mod traced;

pub use call::TraceCall;
pub use quick_cache_model::Reply;
pub use recorder::Recorder;
pub use seat::{PARTS, Seat};
pub use traced::Traced;
