//! A loader in front of which the shared cache stands: a function of a key and a moment, whose
//! values are remembered for so long as they live.
#![tactic(auto)]

mod answering;
mod fresh;
mod future;
mod gets;
mod given;
mod lives;
mod looks;
mod many;
mod pace;
mod reading;

pub use fresh::Fresh;
pub use future::GetFuture;
pub use given::{AnySource, Given, Source};
pub use lives::{ByAnswer, Lives, WithLife};
pub use quick_cache_expiring::{ByValue, Loaded};
pub use quick_cache_model::{
    Bytes, BytesIn, DefaultHashBuilder, Refusal, Text, TextIn, UnitWeighter, Weighter,
};
pub use quick_cache_options::options::{Error, Options, OptionsBuilder};
pub use quick_cache_stats::Stats;
pub use reading::ReadThrough;
