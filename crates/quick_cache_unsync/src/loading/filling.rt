//! Placeholders that this crate made, which are filled where they stand.
ghost use Rattle.quick_cache_model.specs.Placeholders.{GivesUpPlaceholder};
ghost use Rattle.quick_cache_shard.specs.Shard.{UpToOrder};
ghost use Rattle.quick_cache_shard.specs.Stays.{IdlesWithin, WritesWithin};
ghost use Rattle.quick_cache_unsync.specs.Loads.{IsAwaited};
ghost use Rattle.quick_cache_unsync.specs.Touches.{no_touches};
ghost use Rattle.quick_cache_unsync.specs.Steps.{FillsThereBy, FillsIfThereBy};

use crate::cache::Cache;
use quick_cache_model::{Lifecycle, Weighter};
use quick_cache_shard::{Placeholder, Ruled};
use std::alloc::Allocator;
use std::hash::{BuildHasher, Hash};

impl<
    K: Eq + Hash + Drop,
    V: Drop,
    We: Weighter<K, V>,
    B: BuildHasher,
    L: Lifecycle<K, V>,
    A: Allocator,
> Cache<K, V, We, B, L, A> {
    /// Fills the placeholder, which is there. It asks for no memory.
    pub(crate) fn fill_placeholder(
        &mut self,
        state: &mut L::RequestState,
        placeholder: &Placeholder,
        value: V,
    )
        requires awaited { IsAwaited placeholder.now.ticket self.old.state }
        ensures fills { FillsThereBy ⟦<Self as Ruled>⟧.goes no_touches self.old
            placeholder.now.ticket value self.new state.old state.new }
        ensures stays { WritesWithin K.eq 0 self.old self.new }
    {
        let _ = self
            .shard
            .replace_placeholder(state, placeholder, false, value);
    }

    /// Fills the placeholder, or drops the value where that is gone. It asks for no memory.
    pub(crate) fn fill_if_there(
        &mut self,
        state: &mut L::RequestState,
        placeholder: &Placeholder,
        value: V,
    )
        ensures fills { FillsIfThereBy ⟦<Self as Ruled>⟧.goes no_touches self.old
            placeholder.now.ticket value self.new state.old state.new }
        ensures stays { WritesWithin K.eq 0 self.old self.new }
    {
        let _ = self
            .shard
            .replace_placeholder(state, placeholder, false, value);
    }

    /// Takes the placeholder out, and calls no hook.
    pub(crate) fn give_up(&mut self, placeholder: &Placeholder)
        ensures gives_up { UpToOrder
            (GivesUpPlaceholder placeholder.now.ticket self.old.state) self.new.state }
        ensures stays { IdlesWithin K.eq 0 self.old self.new }
    {
        self.shard.remove_placeholder(placeholder);
    }
}
