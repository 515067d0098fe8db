//! Options that are set are those that are built.
ghost use Rattle.std.specs.Prelude.{◌≡◌, IsOk, IfOk};

use quick_cache_base::OptionsBuilder;
use quick_cache_base::options::{Error, Options};
use quick_cache_base::sizes::shard_count;

/// Options by a chain of setters, whose outcome is known before it runs.
pub fn build_by_a_chain() -> Result<Options, Error>
    ensures succeeds { IsOk result }
    ensures shards { IfOk result (λ options. options.shards ≡ 3) }
    ensures items { IfOk result (λ options. options.estimated_items_capacity ≡ 1) }
    ensures weight { IfOk result (λ options. options.weight_capacity ≡ 2) }
    ensures hot { IfOk result (λ options. options.hot_allocation ≡ 7) }
    ensures ghosts { IfOk result (λ options. options.ghost_allocation ≡ 8) }
{
    let mut builder = OptionsBuilder::new();
    builder
        .weight_capacity(2)
        .estimated_items_capacity(1)
        .shards(3)
        .hot_allocation(7)
        .ghost_allocation(8)
        .build()
}

/// A cache for few items has one shard, however many are asked for.
pub fn count_shards() -> usize
    ensures { result ≡ 1 }
{
    shard_count(16, 32)
}
