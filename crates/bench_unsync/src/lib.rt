//! The cache for one thread, for a program that times it beside other caches.
#![tactic(auto)]

ghost use Rattle.std.specs.Prelude.{All, IfOk};
ghost use Rattle.quick_cache_runs.specs.Asked.{IfAsks};

use quick_cache_expiring::Expiring;
use quick_cache_model::{Refusal, Text};
use quick_cache_runs::{Call, run};
use quick_cache_unsync::{Cache, NotLoaded};
use std::alloc::{AllocError, Global};

/// How many calls a list has in mode 2.
const LIST: usize = 64;

/// A call that asks a predicate would ask one of this type. None does.
type Predicate = fn(&u64, &u64) -> bool;

/// The answer in a mode that is not built.
const NOT_BUILT: u64 = u64::MAX;

/// The answer where the cache could not be made or an insert was refused.
const REFUSED: u64 = u64::MAX - 1;

// Looks each key up, and inserts it as its own value where nothing was found. The cache counts the
// hits.
fn hits_by_get_and_insert(alloc: Global, items: usize, keys: &[u64]) -> Result<u64, Refusal> {
    let mut cache = Cache::new(alloc, items)?;
    for key in keys {
        if cache.get(key).is_none() {
            cache.insert(*key, *key).map_err(|(_, _, refusal)| refusal)?;
        }
    }
    Ok(cache.hits())
}

// Looks each key up, loads it as its own value where nothing was found, and counts the hits.
fn hits_by_loads(alloc: Global, items: usize, keys: &[u64]) -> Result<u64, Refusal> {
    let mut cache: Cache<u64, u64> = Cache::new(alloc, items)?;
    for key in keys {
        let loaded = cache.get_or_insert_with(key, || Ok::<u64, Refusal>(*key));
        if let Err(NotLoaded::Refused(refusal)) = loaded {
            return Err(refusal);
        }
    }
    Ok(cache.hits())
}

// A call for each key, which loads it as its own value where nothing is found. None asks a predicate.
fn loads(alloc: Global, keys: &[u64]) -> Result<Vec<Call<u64, u64, Predicate>>, AllocError>
    ensures { IfOk result (λ calls. All (IfAsks (λ asked. ⊥)) calls.items) }
{
    let mut calls = Vec::with_capacity(alloc, keys.len())?;
    for key in keys {
        calls.push(Call::Load(*key, Some(*key)))?;
    }
    Ok(calls)
}

// Loads each key as its own value where nothing was found, by lists of calls, and counts the hits.
fn hits_by_runs(alloc: Global, items: usize, keys: &[u64]) -> Result<u64, Refusal> {
    let mut cache: Cache<u64, u64> = Cache::new(alloc, items)?;
    for part in keys.chunks(LIST) {
        let Ok(calls) = loads(alloc, part) else {
            return Err(Refusal::Memory);
        };
        if run(alloc, &mut cache, calls, &mut ()).is_err() {
            return Err(Refusal::Memory);
        }
    }
    Ok(cache.hits())
}

// Inserts the first keys, half as many as there are items. Then it removes the first of each two keys
// and inserts the second, and counts what it removed.
fn removals(alloc: Global, items: usize, keys: &[u64]) -> Result<u64, Refusal> {
    let mut cache = Cache::new(alloc, items)?;
    let (first, pairs) = keys.split_at(keys.len().min(items / 2));
    for key in first {
        cache.put(*key, *key)?;
    }
    let mut removed: u64 = 0;
    for pair in pairs.chunks(2) {
        if let [leaves, enters] = pair {
            if cache.remove(leaves).is_some() {
                removed = removed.wrapping_add(1);
            }
            cache
                .insert(*enters, *enters)
                .map_err(|(_, _, refusal)| refusal)?;
        }
    }
    Ok(removed)
}

// Inserts the keys, and tells how many bytes the slots take then.
fn bytes_of_entries(alloc: Global, items: usize, keys: &[u64]) -> Result<u64, Refusal> {
    let mut cache = Cache::new(alloc, items)?;
    for key in keys {
        cache.put(*key, *key)?;
    }
    Ok(cache.memory_used().entries as u64)
}

// Looks each key up at a moment, and inserts it with a life where nothing was found.
fn hits_with_lives(alloc: Global, items: usize, keys: &[u64]) -> Result<u64, Refusal> {
    let mut cache = Expiring::new(alloc, items)?;
    for key in keys {
        if cache.get(key, 0).is_none() {
            cache
                .insert(*key, *key, 0, 1)
                .map_err(|(_, _, refusal)| refusal)?;
        }
    }
    Ok(cache.stats().hits)
}

// A number as a text of so many bytes.
fn text_of(alloc: Global, number: usize, length: usize) -> Result<String, Refusal> {
    format!(in alloc; "{number:0length$}").map_err(|_| Refusal::Memory)
}

// Inserts texts of so many bytes, half as many as there are items. Then it looks up the text of each
// key, which is the number of one of these, and counts the hits.
fn hits_by_texts(alloc: Global, items: usize, keys: &[u64], length: usize) -> Result<u64, Refusal> {
    let mut texts = Vec::new(alloc);
    let mut cache = Cache::new(alloc, items)?;
    for number in 0..items / 2 {
        cache.put(text_of(alloc, number, length)?, number as u64)?;
        let text = text_of(alloc, number, length)?;
        texts.push(text).map_err(|_| Refusal::Memory)?;
    }
    for key in keys {
        if let Some(text) = texts.get(*key as usize) {
            let _ = cache.get(&Text(text.as_str()));
        }
    }
    Ok(cache.hits())
}

/// Goes over the keys with a new cache of so many items, each of weight 1, and answers the hits.
///
/// Mode 0 is a `get` of each key, and an `insert` where that gave nothing. Mode 1 is one
/// `get_or_insert_with` of each key. Mode 2 is the same by `run`, over lists of 64 calls: a list is
/// made before its first reply is known, so it cannot hold the insert of just those keys that its
/// look-ups miss, and each call is one that loads. Mode 3 inserts half as many keys as there are
/// items, then removes the first of each two keys and inserts the second, and answers how many it
/// removed. Mode 4 inserts each key, and answers the bytes of the entries. Mode 5 is mode 0 over
/// entries that end. Modes 6 and 7 look up texts of 16 and of 64 bytes, by their numbers, among half as
/// many as there are items. No other mode is built.
#[unsafe(no_mangle)]
pub extern "C" fn qcbench_trace(alloc: Global, mode: u32, items: u64, keys: &[u64]) -> u64 {
    let answer = match mode {
        0 => hits_by_get_and_insert(alloc, items as usize, keys),
        1 => hits_by_loads(alloc, items as usize, keys),
        2 => hits_by_runs(alloc, items as usize, keys),
        3 => removals(alloc, items as usize, keys),
        4 => bytes_of_entries(alloc, items as usize, keys),
        5 => hits_with_lives(alloc, items as usize, keys),
        6 => hits_by_texts(alloc, items as usize, keys, 16),
        7 => hits_by_texts(alloc, items as usize, keys, 64),
        _ => return NOT_BUILT,
    };
    answer.unwrap_or(REFUSED)
}
