//! The rule of a history, and the steps by which it grows.

use crate::entry::Entry;
use crate::turn::Turn;
use logbook::{Gain, Offer, Opening, Plain, Play, Rule};
use quick_cache_options::Options;
use quick_cache_options::sizes::ShardSizes;
use std::marker::{Brand, PhantomData};

/// The word of each shard counts the calls of that shard in the history.
pub struct Law<K, V> {
    of: PhantomData<(K, V)>,
}

impl<K, V> Rule<Entry<K, V>, u64> for Law<K, V> {
    ghost use Rattle.std.specs.Prelude.{[]};
    ghost use base.Fml.{ftrue};
    ghost use Rattle.quick_cache_history.specs.Laws.{IsCounted};

    ghost holds = { λ words log. IsCounted words log };

    ghost first = { [] };

    ghost hinted = { λ n log. Unit {0} };

    ghost shows = { λ log. [] };

    ghost keeps = { λ names log. ftrue };

    ghost moves = { λ ask before after answer. Unit {0} };
}

/// The history begins with what the cache is made with.
pub(crate) struct Opened;

impl<'a, K, V> Opening<(&'a Options, ShardSizes), Entry<K, V>> for Opened {
    ghost use Rattle.std.specs.Prelude.{[], ◌∷◌};
    ghost use Rattle.quick_cache_history.specs.declared.entry.Entry.{Entry};

    ghost log = { λ count about. Entry.Opened about.0.now about.1 ∷ [] };
}

/// Which history it is. Each use of a cache picks it.
pub trait Naming {
    ghost use Rattle.logbook.specs.Pages.{Book};

    ghost book: { Book };
}

impl Naming for Brand {
    ghost book = { record { number = 0; log_name = 0; cells_name = 0 } };
}

/// Callers trade nothing.
pub(crate) struct Nothing;

impl<K, V> Gain<Entry<K, V>, u64> for Nothing {
    ghost use base.Fml.{ftrue};

    ghost after = { λ names about answer. ftrue };
}

/// A step that looks at how many calls a shard had.
pub(crate) struct Look;

impl<K, V> Play<Entry<K, V>, u64> for Look {
    ghost use Rattle.quick_cache_history.specs.Laws.{FindsCount};

    ghost then = { FindsCount };
}

/// A look adds nothing, whatever it is said to ask.
impl<K, V> Plain<(), Entry<K, V>, u64> for Look {
    ghost use Rattle.std.specs.Prelude.{None};
    ghost use Rattle.quick_cache_model.specs.declared.calls.call.Call.{Call};
    ghost use Rattle.quick_cache_model.specs.declared.calls.reply.Reply.{Reply};
    ghost use Rattle.quick_cache_history.specs.declared.entry.Entry.{Entry};

    ghost ask = { λ about. Entry.Made 0 0 0 Call.Counts Reply.Done };

    ghost state = { λ about. None };
}

/// A step that adds a call.
pub(crate) struct Add;

impl<K, V> Play<Entry<K, V>, u64> for Add {
    ghost use Rattle.quick_cache_history.specs.Laws.{AddsCall};

    ghost then = { AddsCall };
}

/// A call that was made and its reply, told by what its caller holds.
pub(crate) trait Made<X, K, V> {
    ghost use Rattle.std.specs.Prelude.{Bool};
    ghost use Rattle.std.specs.declared.alloc.Global.{Global};
    ghost use Rattle.quick_cache_model.specs.declared.calls.call.Call.{Call};
    ghost use Rattle.quick_cache_model.specs.declared.calls.reply.Reply.{Reply};

    ghost call: { X → Call K V Bool };

    ghost reply: { X → Reply K V Global };
}

/// Such a call of a shard, in its turn.
pub(crate) struct Told<M> {
    of: PhantomData<M>,
}

impl<'a, X, K, V, J: Naming, M: Made<X, K, V>> Plain<
    (&'a Turn<J>, &'a Turn<J>, u64, &'a X),
    Entry<K, V>,
    u64,
> for Told<M> {
    ghost use Rattle.std.specs.Prelude.{None};
    ghost use Rattle.quick_cache_history.specs.declared.entry.Entry.{Entry};

    ghost ask = { λ about. Entry.Made about.0.now about.1.now about.2 (M.call about.3.now)
        (M.reply about.3.now) };

    ghost state = { λ about. None };
}

/// An insert.
pub(crate) struct Inserted;

impl<'a, K, V> Made<(&'a K, &'a V), K, V> for Inserted {
    ghost use Rattle.quick_cache_model.specs.declared.calls.call.Call.{Call};
    ghost use Rattle.quick_cache_model.specs.declared.calls.reply.Reply.{Reply};

    ghost call = { λ about. Call.Insert about.0.now about.1.now };

    ghost reply = { λ about. Reply.Done };
}

/// A replace that is about to be made.
pub(crate) struct Replacing;

impl<'a, K, V> Made<(&'a K, &'a V, bool), K, V> for Replacing {
    ghost use Rattle.quick_cache_model.specs.declared.calls.call.Call.{Call};
    ghost use Rattle.quick_cache_model.specs.declared.calls.reply.Reply.{Reply};

    ghost call = { λ about. Call.Replace about.0.now about.1.now about.2 };

    ghost reply = { λ about. Reply.Done };
}

/// A replace, whose pair is gone: it is told by the entry that was made before.
pub(crate) struct Replaced;

impl<'a, K, V> Made<
    (
        &'a Offer<Entry<K, V>, u64, Law<K, V>, Nothing>,
        &'a Result<(), (K, V)>,
    ),
    K,
    V,
> for Replaced {
    ghost use Rattle.quick_cache_history.specs.Histories.{call_of, reply_of_replace};

    ghost call = { λ about. call_of about.0.now.ask };

    ghost reply = { λ about. reply_of_replace about.1.now };
}

/// A removal, and what it gave.
pub(crate) struct Removed;

impl<'a, K, V> Made<(&'a K, &'a Option<(K, V)>), K, V> for Removed {
    ghost use Rattle.quick_cache_model.specs.declared.calls.call.Call.{Call};
    ghost use Rattle.quick_cache_model.specs.declared.calls.reply.Reply.{Reply};

    ghost call = { λ about. Call.Remove about.0.now };

    ghost reply = { λ about. Reply.Pair about.1.now };
}

/// A removal by a predicate, which answered yes where it gave a pair.
pub(crate) struct RemovedIf;

impl<'a, K, V> Made<(&'a K, &'a Option<(K, V)>), K, V> for RemovedIf {
    ghost use Rattle.std.specs.Prelude.{is_some};
    ghost use Rattle.quick_cache_model.specs.declared.calls.call.Call.{Call};
    ghost use Rattle.quick_cache_model.specs.declared.calls.reply.Reply.{Reply};

    ghost call = { λ about. Call.RemoveIf about.0.now (is_some about.1.now) };

    ghost reply = { λ about. Reply.Pair about.1.now };
}

/// All items of the shard were dropped.
pub(crate) struct Cleared;

impl<K, V> Made<(), K, V> for Cleared {
    ghost use Rattle.quick_cache_model.specs.declared.calls.call.Call.{Call};
    ghost use Rattle.quick_cache_model.specs.declared.calls.reply.Reply.{Reply};

    ghost call = { λ about. Call.Clear };

    ghost reply = { λ about. Reply.Done };
}

/// A step that takes a turn.
pub(crate) struct Take;

impl<K, V> Play<Entry<K, V>, u64> for Take {
    ghost use Rattle.quick_cache_history.specs.Laws.{TakesTurn};

    ghost then = { TakesTurn };
}
