//! Many keys are looked up at once, shard by shard.
ghost use Rattle.std.specs.Prelude.{◌≡◌, ◌<◌, ℕ, length, slice_index, slice_index_or, slice_set, vec_len, None, Ok, OnOk, IfOk, IfErr};
ghost use Rattle.quick_cache_shard.specs.Shard.{Shard};
ghost use Rattle.quick_cache_locked.specs.Locked.{FromSome};
ghost use Rattle.quick_cache_sync.specs.Many.{HasPlaces, IsGot, KeepsOthers, ShowsMany, ShowsThose, place_of};

use crate::cache::Cache;
use quick_cache_locked::LockedShard;
use quick_cache_model::{Equivalent, Lifecycle, Refusal};
use std::alloc::Allocator;
use std::hash::{BuildHasher, Hash};
use std::sync::{RwLock, Wait};

impl<K: Eq + Hash + Drop, V: Clone, We, B: BuildHasher, L: Lifecycle<K, V>, A: Allocator> Cache<
    K,
    V,
    We,
    B,
    L,
    A,
> {
    /// Looks the keys of the queries up, each as `get` does, and gives what it found in the order of
    /// the queries. The queries of one shard are looked up together: it takes the read lock of each
    /// shard once, one after another, and none of a shard that no query has. It allocates two lists.
    ///
    /// # Errors
    ///
    /// `Memory` where a list or a clone was refused. What was looked up before is counted.
    pub fn get_many<Q: Equivalent<K>, O: Allocator + Clone, R: Wait>(
        &self,
        rt: &R,
        alloc: O,
        queries: &[Q],
    ) -> Result<Vec<Option<V>, O>, Refusal>
        // The values of the queries of one shard are what some shard shows at one moment.
        ensures answers { IfOk result (λ values. ShowsMany L.Lifecycle K.eq V.is_clone
            Q.equivalent queries.now values.items We B
            (place_of B.BuildHasher B.Hasher.Hasher self.now Q.hash_input)) }
        ensures refused { IfErr result (λ refusal. refusal ≡ Refusal.Memory) }
    {
        let own: Result<_, _> = alloc.clone();
        let Ok(own) = own else {
            return Err(Refusal::Memory);
        };
        let places = self.places_of(own, queries)?;
        let Ok(mut values) = Vec::with_capacity(alloc, queries.len()) else {
            return Err(Refusal::Memory);
        };
        for _ in 0..queries.len() {
            values.push_reserved(None);
        }
        for place in 0..self.shards.len() {
            get_those(
                rt,
                &self.shards[place],
                place,
                &places,
                queries,
                &mut values,
            )?;
        }
        Ok(values)
    }

    // The shard of each query.
    fn places_of<Q: Equivalent<K>, O: Allocator>(
        &self,
        alloc: O,
        queries: &[Q],
    ) -> Result<Vec<usize, O>, Refusal>
        ensures places { IfOk result (λ places. HasPlaces
            (place_of B.BuildHasher B.Hasher.Hasher self.now Q.hash_input) self.now.shards
            queries.now places.items) }
        ensures refused { IfErr result (λ refusal. refusal ≡ Refusal.Memory) }
    {
        let Ok(mut places) = Vec::with_capacity(alloc, queries.len()) else {
            return Err(Refusal::Memory);
        };
        for query in queries {
            places.push_reserved(self.shard_index(query));
        }
        Ok(places)
    }
}

/// Looks up those of the queries that have this place, if there are any, under the shard's lock.
fn get_those<
    K: Eq + Hash + Drop,
    V: Clone,
    We,
    B: BuildHasher,
    L: Lifecycle<K, V>,
    A: Allocator,
    Q: Equivalent<K>,
    O: Allocator,
    R: Wait,
>(
    rt: &R,
    lock: &RwLock<LockedShard<K, V, We, B, L, A>>,
    place: usize,
    places: &[usize],
    queries: &[Q],
    values: &mut Vec<Option<V>, O>,
) -> Result<(), Refusal>
    requires places { length places.now ≡ length queries.now }
    requires values { vec_len values.old ≡ length queries.now }
    ensures gets { OnOk result ((index : ℕ) (query : Q) → index < length queries.now
        → query ≡ slice_index_or queries.now index query → slice_index places.now index ≡ place
        → FromSome L.Lifecycle K.eq (λ (shard : Shard K V We B L).
        ShowsThose L.Lifecycle K.eq V.is_clone Q.equivalent queries.now values.new.items
        (λ index _. slice_index places.now index ≡ place) shard)) }
    ensures others { KeepsOthers places.now place values.old.items values.new.items }
    ensures as_many { vec_len values.new ≡ vec_len values.old }
    ensures refused { IfErr result (λ refusal. refusal ≡ Refusal.Memory) }
{
    if !places.contains(&place) {
        return Ok(());
    }
    let shard = lock.read(rt);
    get_those_in(&shard, place, places, queries, values)
}

/// Looks up those of the queries that have this place, in the shard that has it.
fn get_those_in<
    K: Eq + Hash + Drop,
    V: Clone,
    We,
    B: BuildHasher,
    L: Lifecycle<K, V>,
    A: Allocator,
    Q: Equivalent<K>,
    O: Allocator,
>(
    shard: &LockedShard<K, V, We, B, L, A>,
    place: usize,
    places: &[usize],
    queries: &[Q],
    values: &mut Vec<Option<V>, O>,
) -> Result<(), Refusal>
    requires places { length places.now ≡ length queries.now }
    requires values { vec_len values.old ≡ length queries.now }
    ensures gets { OnOk result (ShowsThose L.Lifecycle K.eq V.is_clone Q.equivalent queries.now
        values.new.items (λ index _. slice_index places.now index ≡ place) shard.now) }
    ensures others { KeepsOthers places.now place values.old.items values.new.items }
    ensures as_many { vec_len values.new ≡ vec_len values.old }
    ensures refused { IfErr result (λ refusal. refusal ≡ Refusal.Memory) }
{
    for index in 0..queries.len() {
        get_at(shard, index, place, places, queries, values)?;
    }
    Ok(())
}

/// Looks the query at this index up, if it has this place.
fn get_at<
    K: Eq + Hash + Drop,
    V: Clone,
    We,
    B: BuildHasher,
    L: Lifecycle<K, V>,
    A: Allocator,
    Q: Equivalent<K>,
    O: Allocator,
>(
    shard: &LockedShard<K, V, We, B, L, A>,
    index: usize,
    place: usize,
    places: &[usize],
    queries: &[Q],
    values: &mut Vec<Option<V>, O>,
) -> Result<(), Refusal>
    requires index { index < length queries.now }
    requires places { length places.now ≡ length queries.now }
    requires values { vec_len values.old ≡ length queries.now }
    ensures gets { OnOk result ((query : Q) → query ≡ slice_index_or queries.now index query
        → slice_index places.now index ≡ place
        → IsGot L.Lifecycle K.eq V.is_clone Q.equivalent query shard.now
        (Ok (slice_index_or values.new.items index None))) }
    ensures elsewhere { (other : ℕ) → (other ≡ index → ⊥)
        → slice_index_or values.new.items other None ≡ slice_index_or values.old.items other None }
    ensures unasked { (slice_index places.now index ≡ place → ⊥)
        → values.new.items ≡ values.old.items }
    ensures as_many { vec_len values.new ≡ vec_len values.old }
    ensures refused { IfErr result (λ refusal. refusal ≡ Refusal.Memory) }
{
    if places[index] != place {
        return Ok(());
    }
    let found = get_in(shard, &queries[index])?;
    put_at(values, index, found);
    Ok(())
}

/// Puts the value in the place of the one at this index.
fn put_at<V: Drop, O: Allocator>(values: &mut Vec<Option<V>, O>, index: usize, value: Option<V>)
    requires index { index < vec_len values.old }
    ensures puts { values.new.items ≡ slice_set values.old.items index value }
    ensures as_many { vec_len values.new ≡ vec_len values.old }
{
    values[index] = value;
}

/// Looks one query up.
fn get_in<
    K: Eq + Hash + Drop,
    V: Clone,
    We,
    B: BuildHasher,
    L: Lifecycle<K, V>,
    A: Allocator,
    Q: Equivalent<K>,
>(shard: &LockedShard<K, V, We, B, L, A>, query: &Q) -> Result<Option<V>, Refusal>
    ensures got { IsGot L.Lifecycle K.eq V.is_clone Q.equivalent query.now shard.now result }
    ensures refused { IfErr result (λ refusal. refusal ≡ Refusal.Memory) }
{
    shard.get(query)
}
