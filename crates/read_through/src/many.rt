//! Many keys at once: those of which nothing serves are loaded by one call.
ghost use Rattle.std.specs.Prelude.{◌≡◌, ◌≤◌, ◌<◌, ℕ, List, [], IsTrue, Ok, IfOk, IfErr, IfSome, length, slice_index_or, vec_capacity, vec_items, vec_len};
ghost use Rattle.std.specs.Fn.{FnOnceReturnsAt, FnOnceTakesAt};
ghost use Rattle.std.specs.List.{AllZip};
ghost use Rattle.read_through.specs.Answers.{Answers, GivesClones, IsOf};
ghost use Rattle.read_through.specs.Many.{LoadsAll, LoadsMany, filled, missing};

use crate::given::Source;
use crate::lives::Lives;
use crate::reading::ReadThrough;
use quick_cache_expiring::Loaded;
use quick_cache_model::{Refusal, Weighter};
use std::alloc::{Allocator, Global};
use std::hash::{BuildHasher, Hash};
use std::sync::Wait;
use std::sync::atomic::Ordering;

impl<
    K: Eq + Hash + Clone + Drop,
    V: Clone + Drop,
    F,
    S: Source<K, V>,
    A: Allocator + Clone,
    Li: Lives<K, V>,
    We: Weighter<K, V>,
    B: BuildHasher,
> ReadThrough<K, V, F, S, A, Li, We, B> {
    /// The values of these keys, in their order. What is stored and serves is answered, and clones of
    /// the other keys are given to `load_all`, in their order: one that stands twice among them comes
    /// twice. It is called once, at no key not at all, and under no lock. What it gives, a value for
    /// each key in its place, is stored as `put` does, and is answered also where it could not be.
    ///
    /// The keys of one shard are looked up together, under its read lock. Nobody waits for this load,
    /// nor does it for another: with a guard for each of its keys two such calls could wait for each
    /// other. A hit or a miss is counted for each key, and one load. It allocates four lists.
    ///
    /// # Errors
    ///
    /// Of the two, the outer one is `Memory`, where a list or a clone was refused; `load_all` was not
    /// called then. The inner one is its own, and nothing is stored.
    pub fn load_many<R: Wait, E: Drop, G: FnOnce(&[K]) -> Result<Vec<V>, E>>(
        &self,
        rt: &R,
        alloc: Global,
        keys: &[K],
        now: u64,
        load_all: G,
    ) -> Result<Result<Vec<V>, E>, Refusal>
        requires keys { (key copy : K) → K.is_clone key copy → IsTrue (K.eq key copy) }
        requires callable { (asked : List K) → FnOnceTakesAt G.FnOnce load_all asked }
        // It gives a value for each key that it is asked for, the source's for that key.
        requires as_many { (asked : List K) (loaded : _)
            → FnOnceReturnsAt G.FnOnce load_all asked (Ok loaded) → vec_len loaded ≡ length asked }
        requires loads { (asked : List K) (loaded : _)
            → FnOnceReturnsAt G.FnOnce load_all asked (Ok loaded) → (index : ℕ) (key : K) (value : V)
            → index < length asked → key ≡ slice_index_or asked index key
            → value ≡ slice_index_or (vec_items loaded) index value → S.gives key now value }
        requires clones { GivesClones S.gives V.is_clone }
        // Whatever other threads do, each value is the source's for its key, and fresh.
        ensures fresh { IfOk result (λ given. IfOk given (λ values. AllZip (λ key.
            Answers S.gives K.eq key (Li.life_of self.now.lives key) now) keys.now values.items)) }
        // No key is loaded of which something serves.
        ensures asks { IfOk result (LoadsMany vec_items K.is_clone (λ key. Answers S.gives K.eq key
            (Li.life_of self.now.lives key) now) (FnOnceReturnsAt G.FnOnce load_all) keys.now) }
        ensures refused { IfErr result (λ refusal. refusal ≡ Refusal.Memory) }
    {
        let found = self.find_many(rt, alloc, keys, now)?;
        let missing = missing_of(alloc, keys, &found)?;
        let values = room_for(alloc, keys.len())?;
        let asked = missing.as_slice();
        match self.load_those(alloc, asked, now, load_all) {
            Ok(loaded) => {
                self.store_all(rt, asked, &loaded, now);
                Ok(Ok(fill(values, found, loaded)))
            }
            Err(error) => Ok(Err(error)),
        }
    }

    /// What is stored of each key, where it serves.
    fn find_many<R: Wait>(
        &self,
        rt: &R,
        alloc: Global,
        keys: &[K],
        now: u64,
    ) -> Result<Vec<Option<Loaded<V>>>, Refusal>
        requires clones { GivesClones S.gives V.is_clone }
        ensures one_each { IfOk result (λ found. vec_len found ≡ length keys.now) }
        ensures serve { IfOk result (λ found. AllZip (λ key it. IfSome it (λ loaded. Answers S.gives
            K.eq key (Li.life_of self.now.lives key) now loaded.value)) keys.now found.items) }
        ensures refused { IfErr result (λ refusal. refusal ≡ Refusal.Memory) }
    {
        let mut found = self.cache.get_many(rt, alloc, keys)?;
        self.leave_serving(keys, &mut found, now);
        Ok(found)
    }

    /// Leaves of what was found what serves.
    fn leave_serving(&self, keys: &[K], found: &mut Vec<Option<Loaded<V>>>, now: u64)
        requires one_each { vec_len found.old ≡ length keys.now }
        requires source { AllZip (λ key it. IfSome it (λ loaded.
            IsOf S.gives K.eq key loaded.moment loaded.value)) keys.now found.old.items }
        ensures one_each { vec_len found.new ≡ length keys.now }
        ensures serve { AllZip (λ key it. IfSome it (λ loaded. Answers S.gives K.eq key
            (Li.life_of self.now.lives key) now loaded.value)) keys.now found.new.items }
    {
        for index in 0..keys.len() {
            self.leave_if_serving(&keys[index], &mut found[index], now);
        }
    }

    /// Leaves what was found where it serves, and else counts that it is too old.
    fn leave_if_serving(&self, key: &K, found: &mut Option<Loaded<V>>, now: u64)
        requires source { IfSome found.old (λ loaded.
            IsOf S.gives K.eq key.now loaded.moment loaded.value) }
        ensures serve { IfSome found.new (λ loaded. Answers S.gives K.eq key.now
            (Li.life_of self.now.lives key.now) now loaded.value) }
    {
        let Some(loaded) = found else {
            return;
        };
        if loaded.serves(self.lives.life(key, &loaded.value, loaded.moment), now) {
            return;
        }
        self.not_hits.fetch_add(1, Ordering::SeqCst);
        self.too_old.fetch_add(1, Ordering::SeqCst);
        *found = None;
    }

    /// What `load_all` gives for these keys, if there are any.
    fn load_those<E, G: FnOnce(&[K]) -> Result<Vec<V>, E>>(
        &self,
        alloc: Global,
        asked: &[K],
        now: u64,
        load_all: G,
    ) -> Result<Vec<V>, E>
        requires callable { (asked : List K) → FnOnceTakesAt G.FnOnce load_all asked }
        requires as_many { (asked : List K) (loaded : _)
            → FnOnceReturnsAt G.FnOnce load_all asked (Ok loaded) → vec_len loaded ≡ length asked }
        requires loads { (asked : List K) (loaded : _)
            → FnOnceReturnsAt G.FnOnce load_all asked (Ok loaded) → (index : ℕ) (key : K) (value : V)
            → index < length asked → key ≡ slice_index_or asked index key
            → value ≡ slice_index_or (vec_items loaded) index value → S.gives key now value }
        ensures loads { LoadsAll vec_items (FnOnceReturnsAt G.FnOnce load_all) asked.now result }
        ensures one_each { IfOk result (λ loaded. vec_len loaded ≡ length asked.now) }
        ensures gave { IfOk result
            (λ loaded. AllZip (λ key. S.gives key now) asked.now loaded.items) }
    {
        if asked.is_empty() {
            return Ok(Vec::new(alloc));
        }
        let loaded = load_all(asked);
        self.count_load(&loaded);
        loaded
    }

    /// Stores a clone of each value under a clone of the key in its place, where there is memory.
    fn store_all<R: Wait>(&self, rt: &R, keys: &[K], values: &[V], now: u64)
        requires same { (key copy : K) → K.is_clone key copy → IsTrue (K.eq key copy) }
        requires one_each { length values.now ≡ length keys.now }
        requires gave { AllZip (λ key. S.gives key now) keys.now values.now }
        requires clones { GivesClones S.gives V.is_clone }
    {
        for index in 0..keys.len() {
            self.store_one(rt, &keys[index], &values[index], now);
        }
    }

    /// The same of one.
    fn store_one<R: Wait>(&self, rt: &R, key: &K, value: &V, now: u64)
        requires same { (copy : K) → K.is_clone key.now copy → IsTrue (K.eq key.now copy) }
        requires gave { S.gives key.now now value.now }
        requires clones { GivesClones S.gives V.is_clone }
    {
        let own: Result<_, _> = key.clone();
        let copy: Result<_, _> = value.clone();
        if let (Ok(own), Ok(copy)) = (own, copy) {
            drop(self.cache.put(rt, own, Loaded::at(copy, now)));
        }
    }
}

/// Clones of the keys of which nothing was found.
fn missing_of<K: Clone + Drop, T: Drop>(
    alloc: Global,
    keys: &[K],
    found: &[Option<T>],
) -> Result<Vec<K>, Refusal>
    requires one_each { length found.now ≡ length keys.now }
    ensures copies { IfOk result
        (λ asked. AllZip K.is_clone (missing keys.now found.now) asked.items) }
    ensures refused { IfErr result (λ refusal. refusal ≡ Refusal.Memory) }
{
    let mut asked = Vec::new(alloc);
    for index in 0..keys.len() {
        let key = &keys[index];
        if found[index].is_some() {
            continue;
        }
        let copy: Result<_, _> = key.clone();
        let Ok(copy) = copy else {
            return Err(Refusal::Memory);
        };
        if asked.push(copy).is_err() {
            return Err(Refusal::Memory);
        }
    }
    Ok(asked)
}

/// An empty list that has room for so many.
fn room_for<T: Drop>(alloc: Global, count: usize) -> Result<Vec<T>, Refusal>
    ensures empty { IfOk result (λ list. list.items ≡ []) }
    ensures room { IfOk result (λ list. count ≤ vec_capacity list) }
    ensures refused { IfErr result (λ refusal. refusal ≡ Refusal.Memory) }
{
    match Vec::with_capacity(alloc, count) {
        Ok(list) => Ok(list),
        Err(_) => Err(Refusal::Memory),
    }
}

/// What was found, and in the place of each that was not the next that was loaded, put into an empty
/// list that has room.
fn fill<V: Drop>(mut values: Vec<V>, found: Vec<Option<Loaded<V>>>, loaded: Vec<V>) -> Vec<V>
    requires empty { values.items ≡ [] }
    requires room { vec_len found ≤ vec_capacity values }
    ensures fills { result.items ≡ filled found.items loaded.items }
{
    let mut loaded = loaded.into_iter();
    let mut rest = found.into_iter();
    while let Some(found) = rest.next() {
        match found {
            Some(found) => values.push_reserved(found.value),
            None => {
                if let Some(value) = loaded.next() {
                    values.push_reserved(value);
                }
            }
        }
    }
    values
}
