//! The calls that commands ask for, made on a cache of numbers.
ghost use Rattle.std.specs.Prelude.{◌≡◌, IsSome, nat_eq};
ghost use Rattle.quick_cache_model.specs.Hooks.{Calls};
ghost use Rattle.quick_cache_model.specs.Lookups.{Sees};
ghost use Rattle.quick_cache_model.specs.Removal.{RemovesIf};
ghost use Rattle.quick_cache_shard.specs.Shard.{UpToOrder};
ghost use Rattle.quick_cache_shard.specs.Steps.{rules_in, hooks_in};
ghost use Rattle.quick_cache_unsync.specs.Touches.{no_touches};
ghost use Rattle.qcrun_parts.specs.Served.{Serves, ServesAsked, call_of, is_wanted, numbers_of};

use crate::command::Command;
use crate::events::Events;
use crate::numbers::NumberCache;
use quick_cache_model::{Call, Reply};
use quick_cache_shard::Ruled;
use quick_cache_unsync::{poke, set};
use std::alloc::Allocator;

/// Inserts a pair.
fn insert<A: Allocator>(
    cache: &mut NumberCache<A>,
    key: u64,
    value: u64,
    events: &mut Events<A>,
) -> Reply<u64, u64>
    ensures serves { Calls (hooks_in ⟦<NumberCache<A> as Ruled>⟧.goes cache.old)
        (λ calls. Serves (rules_in ⟦<NumberCache<A> as Ruled>⟧.goes no_touches cache.old)
        cache.old.state (Call.Insert key value) result calls cache.new.state)
        events.old events.new }
    ensures same { cache.new ≡ record cache.old {
      state = cache.new.state;
      places = cache.new.places;
      room = cache.new.room;
      work = cache.new.work;
    } }
{
    match cache.insert_with_lifecycle(key, value, events) {
        Ok(()) => Reply::Done,
        Err((key, value, refusal)) => Reply::RefusedPair(key, value, refusal),
    }
}

/// Puts a pair in the place of another.
fn replace<A: Allocator>(
    cache: &mut NumberCache<A>,
    key: u64,
    value: u64,
    soft: bool,
    events: &mut Events<A>,
) -> Reply<u64, u64>
    ensures serves { Calls (hooks_in ⟦<NumberCache<A> as Ruled>⟧.goes cache.old)
        (λ calls. Serves (rules_in ⟦<NumberCache<A> as Ruled>⟧.goes no_touches cache.old)
        cache.old.state (Call.Replace key value soft) result calls cache.new.state)
        events.old events.new }
    ensures same { cache.new ≡ record cache.old {
      state = cache.new.state;
      places = cache.new.places;
      room = cache.new.room;
      work = cache.new.work;
    } }
{
    match cache.replace_with_lifecycle(key, value, soft, events) {
        Ok(()) => Reply::Done,
        Err((key, value)) => Reply::NotAdmitted(key, value),
    }
}

/// Takes the item under a key out where it has this value, and gives its pair.
fn remove_value<A: Allocator>(
    cache: &mut NumberCache<A>,
    key: u64,
    wanted: u64,
) -> Option<(u64, u64)>
    ensures removes { UpToOrder
        (RemovesIf (nat_eq key) cache.old.state (is_wanted wanted key) result) cache.new.state }
    ensures same { cache.new ≡ record cache.old {
      state = cache.new.state;
      places = cache.new.places;
      room = cache.new.room;
    } }
{
    cache.remove_if(&key, |value| *value == wanted)
}

/// Looks a key up, or takes a guard for it, which is filled with what is given, or dropped where
/// nothing is.
fn guarded<A: Allocator>(
    cache: &mut NumberCache<A>,
    key: u64,
    given: Option<u64>,
    events: &mut Events<A>,
) -> Reply<u64, u64>
    ensures serves { Calls (hooks_in ⟦<NumberCache<A> as Ruled>⟧.goes cache.old)
        (λ calls. Serves (rules_in ⟦<NumberCache<A> as Ruled>⟧.goes no_touches cache.old)
        cache.old.state (Call.Guarded key given) result calls cache.new.state)
        events.old events.new }
    ensures same { cache.new ≡ record cache.old {
      state = cache.new.state;
      places = cache.new.places;
      room = cache.new.room;
      work = cache.new.work;
    } }
{
    match cache.get_ref_or_guard(&key) {
        Ok(Ok(found)) => Reply::Found(*found),
        Ok(Err(guard)) => match given {
            Some(value) => {
                guard.insert_with_lifecycle(value, events);
                Reply::Filled
            }
            None => Reply::Dropped,
        },
        Err(refusal) => Reply::Refused(refusal),
    }
}

/// Looks a key up, or loads what is given for it; where nothing is given, the load fails.
fn load<A: Allocator>(
    cache: &mut NumberCache<A>,
    key: u64,
    given: Option<u64>,
    events: &mut Events<A>,
) -> Reply<u64, u64>
    ensures serves { Calls (hooks_in ⟦<NumberCache<A> as Ruled>⟧.goes cache.old)
        (λ calls. Serves (rules_in ⟦<NumberCache<A> as Ruled>⟧.goes no_touches cache.old)
        cache.old.state (Call.Load key given) result calls cache.new.state)
        events.old events.new }
    ensures same { cache.new ≡ record cache.old {
      state = cache.new.state;
      places = cache.new.places;
      room = cache.new.room;
      work = cache.new.work;
    } }
{
    match guarded(cache, key, given, events) {
        Reply::Filled => Reply::Loaded(cache.contains_key(&key)),
        Reply::Dropped => Reply::LoadFailed,
        reply => reply,
    }
}

/// How often the item under a key was read.
fn reads<A: Allocator>(cache: &NumberCache<A>, key: u64) -> Option<u64>
    ensures sees { Sees (nat_eq key) cache.now.state (λ item. item.reads) result }
{
    let stats = cache.item_stats(&key)?;
    Some(stats.access_count)
}

/// Tells the numbers of the cache.
fn count<A: Allocator>(cache: &NumberCache<A>) -> Reply<u64, u64>
    ensures { result ≡ numbers_of cache.now.state }
{
    Reply::Counts {
        len: cache.len(),
        weight: cache.weight(),
        capacity: cache.capacity(),
        hits: cache.hits(),
        misses: cache.misses(),
    }
}

/// Makes the call that a command asks for.
pub fn make_call<A: Allocator>(
    cache: &mut NumberCache<A>,
    command: Command,
    events: &mut Events<A>,
) -> Reply<u64, u64>
    requires asks { IsSome (call_of command) }
    ensures serves { Calls (hooks_in ⟦<NumberCache<A> as Ruled>⟧.goes cache.old)
        (λ calls. ServesAsked (rules_in ⟦<NumberCache<A> as Ruled>⟧.goes no_touches cache.old)
        cache.old.state command result calls cache.new.state)
        events.old events.new }
    ensures same { cache.new ≡ record cache.old {
      state = cache.new.state;
      places = cache.new.places;
      room = cache.new.room;
      work = cache.new.work;
    } }
{
    match command {
        Command::Insert(key, value) => insert(cache, key, value, events),
        Command::Replace(key, value) => replace(cache, key, value, false, events),
        Command::Soft(key, value) => replace(cache, key, value, true, events),
        Command::Get(key) => Reply::Value(cache.get(&key).copied()),
        Command::Peek(key) => Reply::Value(cache.peek(&key).copied()),
        Command::Remove(key) => Reply::Pair(cache.remove(&key)),
        Command::RemoveIf(key, value) => Reply::Pair(remove_value(cache, key, value)),
        Command::Set(key, value) => Reply::Flag(set(cache, &key, value)),
        Command::Poke(key, value) => Reply::Flag(poke(cache, &key, value)),
        Command::Load(key, value) => load(cache, key, Some(value), events),
        Command::Fail(key) => load(cache, key, None, events),
        Command::Guard(key, value) => guarded(cache, key, Some(value), events),
        Command::Drop(key) => guarded(cache, key, None, events),
        Command::Stats(key) => Reply::Stats(reads(cache, key)),
        Command::Clear => {
            cache.clear();
            Reply::Done
        }
        Command::Capacity(weight) => {
            cache.set_capacity_with_lifecycle(weight, events);
            Reply::Done
        }
        Command::Hits => count(cache),
        Command::Cache(..) | Command::CacheWithShares(..) => unreachable!(),
        Command::CacheWithMark(..) | Command::Show => unreachable!(),
    }
}
