//! Histories that begin.

use crate::entry::Entry;
use crate::law::{Law, Opened};
use logbook::{Pens, Seen, Start};
use quick_cache_options::Options;
use quick_cache_options::sizes::{ShardSizes, shard_sizes};
use std::marker::Model;

/// The history of a cache that is to be made of these options. A use of a cache names it, and
/// contracts see which one it is.
#[derive(Drop)]
pub struct History<K, V> {
    pub(crate) options: Options,
    pub(crate) sizes: ShardSizes,
    pub(crate) seen: Seen<Entry<K, V>, u64, Law<K, V>>,
    pub(crate) pens: Pens,
}

impl<K, V> Model for History<K, V> {
    ghost use Rattle.logbook.specs.Pages.{Book};
    ghost use Rattle.quick_cache_history.specs.Openings.{IsOpening};

    ghost Value = { Book };

    ghost view = { λ history. history.seen.book };

    ghost invariant = { λ history. IsOpening history.options history.sizes history.seen.log
        history.seen.names history.seen.book history.pens };
}

impl<K, V> History<K, V> {
    /// The beginning of a history.
    pub fn new(options: Options) -> Self {
        let sizes = shard_sizes(&options);
        let (seen, pens) = Seen::open_row::<(&Options, ShardSizes), Opened>(
            &(&options, sizes),
            Start::alone(),
            sizes.shards,
        );
        History {
            options,
            sizes,
            seen,
            pens,
        }
    }
}
