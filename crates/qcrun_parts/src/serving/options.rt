//! The options that a command asks for a new cache with.
ghost use Rattle.std.specs.Prelude.{◌≡◌};
ghost use Rattle.qcrun_parts.specs.Sessions.{choices_of};

use crate::command::Command;
use quick_cache_options::options::OptionsBuilder;

/// The options of the cache that a command asks for, if it asks for one.
pub fn options_of(command: Command) -> Option<OptionsBuilder>
    ensures { result ≡ choices_of command }
{
    let mut options = OptionsBuilder::new();
    match command {
        Command::Cache(items, weight) => {
            options
                .estimated_items_capacity(items)
                .weight_capacity(weight);
            Some(options)
        }
        Command::CacheWithShares(items, weight, hot, ghosts) => {
            options
                .estimated_items_capacity(items)
                .weight_capacity(weight)
                .hot_allocation(hot)
                .ghost_allocation(ghosts);
            Some(options)
        }
        Command::CacheWithMark(items, weight, hot, ghosts, mark) => {
            options
                .estimated_items_capacity(items)
                .weight_capacity(weight)
                .hot_allocation(hot)
                .ghost_allocation(ghosts)
                .mark_cut(mark);
            Some(options)
        }
        _ => None,
    }
}
