//! Many keys are looked up at once, shard by shard.
ghost use Rattle.std.specs.Prelude.{◌≡◌, ◌≤◌, [], IfOk, IfErr, length, map, vec_capacity, vec_len};
ghost use Rattle.quick_cache_sync.specs.Many.{place_of};
ghost use Rattle.quick_cache_expiring_sync.specs.Looks.{serving};
ghost use Rattle.quick_cache_expiring_sync.specs.Many.{ShowsManyAt};

use crate::gets::{is_over, serving};
use crate::shared::SharedExpiring;
use quick_cache_expiring::Lasting;
use quick_cache_model::{Equivalent, Lifecycle, Refusal};
use std::alloc::Allocator;
use std::hash::{BuildHasher, Hash};
use std::sync::Wait;
use std::sync::atomic::Ordering;

impl<
    K: Eq + Hash + Drop,
    V: Clone + Drop,
    We,
    B: BuildHasher,
    L: Lifecycle<K, Lasting<V>>,
    A: Allocator,
> SharedExpiring<K, V, We, B, L, A> {
    /// Looks the keys of the queries up, and gives the values that serve at this moment, in the order
    /// of the queries. A hit or a miss is counted for each. An entry that is over is cloned first,
    /// counts as a miss and as expired, and is taken out, unless another has stored what serves.
    ///
    /// The queries of one shard are looked up together: it takes the read lock of each shard once, one
    /// after another, none of a shard that no query has, and then the write lock for each entry that
    /// is over. It allocates three lists.
    ///
    /// # Errors
    ///
    /// `Memory` where a list or a clone was refused. What was looked up before is counted, as a hit
    /// where it is over, too.
    pub fn get_many<Q: Equivalent<K>, O: Allocator + Clone, R: Wait>(
        &self,
        rt: &R,
        alloc: O,
        queries: &[Q],
        now: u64,
    ) -> Result<Vec<Option<V>, O>, Refusal>
        ensures answers { IfOk result (λ values. ShowsManyAt L.Lifecycle K.eq V.is_clone now
            Q.equivalent queries.now values.items We B
            (place_of B.BuildHasher B.Hasher.Hasher self.now Q.hash_input)) }
        ensures refused { IfErr result (λ refusal. refusal ≡ Refusal.Memory) }
    {
        let own: Result<_, _> = alloc.clone();
        let Ok(own) = own else {
            return Err(Refusal::Memory);
        };
        let Ok(values) = Vec::with_capacity(own, queries.len()) else {
            return Err(Refusal::Memory);
        };
        let found = self.cache.get_many(rt, alloc, queries)?;
        self.drop_those_over(rt, queries, &found, now);
        Ok(serving_of(values, found, now))
    }

    /// Counts what was found and is over, and takes it out.
    fn drop_those_over<Q: Equivalent<K>, R: Wait>(
        &self,
        rt: &R,
        queries: &[Q],
        found: &[Option<Lasting<V>>],
        now: u64,
    )
        requires one_each { length found.now ≡ length queries.now }
    {
        for index in 0..queries.len() {
            if is_over(&found[index], now) {
                self.not_hits.fetch_add(1, Ordering::SeqCst);
                drop(self.expires(rt, &queries[index], now));
            }
        }
    }
}

/// What serves of what was found, put into an empty list that has room.
fn serving_of<V: Drop, O: Allocator>(
    mut values: Vec<Option<V>, O>,
    found: Vec<Option<Lasting<V>>, O>,
    now: u64,
) -> Vec<Option<V>, O>
    requires empty { values.items ≡ [] }
    requires room { vec_len found ≤ vec_capacity values }
    ensures { result.items ≡ map (serving now) found.items }
{
    let mut rest = found.into_iter();
    while let Some(found) = rest.next() {
        values.push_reserved(serving(found, now));
    }
    values
}
