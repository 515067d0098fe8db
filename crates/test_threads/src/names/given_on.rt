//! The names of `quick_cache`, each asked for by itself: where one is lost, this does not compile.

pub mod at_the_top {
    pub use quick_cache::{
        DefaultHashBuilder, Equivalent, ItemStats, Lifecycle, MemoryUsed, Options, OptionsBuilder,
        Refusal, ToKey, UnitWeighter, Weighter, linked_slab, options, protocol, shard, sync,
        sync_placeholder, table, unsync,
    };
}

pub mod in_options {
    pub use quick_cache::options::{
        DEFAULT_GHOST_ALLOCATION, DEFAULT_HOT_ALLOCATION, DEFAULT_MARK_CUT, Error, Options,
        OptionsBuilder,
    };
}

pub mod in_containers {
    pub use quick_cache::linked_slab::{Drain, Iter, IterFrom, LinkedSlab, Token};
    pub use quick_cache::table::Table;
}

pub mod in_protocol {
    pub use quick_cache::protocol::{Answer, Core, Event, run, step};
}

pub mod in_shard {
    pub use quick_cache::shard::{
        CacheShard, EntryAction, EntryOrPlaceholder, InsertStrategy, RefMut, Resident,
        SharedPlaceholder, Touches,
    };
}

pub mod in_unsync {
    pub use quick_cache::unsync::{
        Cache, Call, DefaultLifecycle, Drain, Guard, Iter, LoadError, NotLoaded, RefMut, Reply, run,
    };
}

pub mod in_sync_placeholder {
    pub use quick_cache::sync_placeholder::{
        Ended, EntryResult, FillError, Filled, GuardResult, JoinFuture, LoadingShard, Place,
        Placeholder, PlaceholderGuard, Share, SharedPlaceholder, State,
    };
}

pub mod in_sync {
    pub use quick_cache::sync::{
        Cache, DefaultLifecycle, Drain, EntryAction, EntryFuture, EntryResult, Fetched,
        GetOrInsert, Guard, GuardResult, Iter, LockContention, LockedShard, PlaceholderGuard, Seat,
        TraceCall, Traced, TryError, ValueOrGuard,
    };
}
