//! The cache behind the lock, with the list of its calls and replies.
ghost use Rattle.std.specs.Prelude.{◌≡◌, ◌+◌, ◌<◌, ◌++◌, ◌∷◌, [], IfOk, IfErr, OnOk, OnErr, vec_len, vec_capacity};
ghost use Rattle.quick_cache_model.specs.Hashing.{hash_of};
ghost use Rattle.quick_cache_shard.specs.Shard.{KeepsTerms, KeepsWork, made_with};
ghost use Rattle.quick_cache_unsync.specs.Touches.{no_touches};
ghost use Rattle.quick_cache_traced.specs.Recorded.{GetsTwice, NotesInsert, RemovesTwice, MayRefuseInsert, Adds, Unmade, IsKept, Shows};
ghost use Rattle.quick_cache_traced.specs.Recorded.{empty_of};
ghost use Rattle.quick_cache_shard.specs.Alone.{IsDoneAlone};
ghost use Rattle.quick_cache_shard.specs.Steps.{InsertsBy, rules_in};

use crate::call::TraceCall;
use crate::looks::{copy_of, look_at_pair, look_twice};
use crate::seat::Seat;
use quick_cache_model::{Lifecycle, Refusal, Reply, Weighter};
use quick_cache_options::options::Options;
use quick_cache_shard::Ruled;
use quick_cache_unsync::Cache;
use std::alloc::{Allocator, Global};
use std::hash::{BuildHasher, Hash};
use std::marker::Model;
use std::sync::ledger::{Book, Ledger};

/// A cache and the list of its calls and replies, as the lock keeps them.
#[derive(Drop)]
pub struct Recorder<
    K: Eq + Hash + Clone + Drop,
    V: Clone + Drop,
    We: Weighter<K, V>,
    B: BuildHasher,
    L: Lifecycle<K, V>,
    G: Ledger,
    A: Allocator = Global,
> {
    cache: Cache<K, V, We, B, L, A>,
    options: Options,
    entries: Vec<(TraceCall<K, V>, Reply<K, V, A>), A>,
    calls: Book<G>,
}

impl<
    K: Eq + Hash + Clone + Drop,
    V: Clone + Drop,
    We: Weighter<K, V>,
    B: BuildHasher,
    L: Lifecycle<K, V>,
    G: Ledger,
    A: Allocator,
> Model for Recorder<K, V, We, B, L, G, A> {
    ghost use Rattle.quick_cache_shard.specs.Goes.{goes_by};
    ghost use Rattle.quick_cache_traced.specs.Recorded.{Recorded, IsKept};

    ghost Value = { Recorded K V We B L A };

    ghost view = { λ r. record {
      cache = r.cache;
      options = r.options;
      entries = r.entries.items;
      calls = r.calls.total;
    } };

    // An invariant cannot quote an impl at type parameters, so what the cache goes by is written out.
    ghost invariant = { λ r. IsKept
        (goes_by K.Hash.hash_input We.Weighter B.BuildHasher B.Hasher.Hasher L.Lifecycle)
        L.RequestState.is_default K.eq K.is_clone V.is_clone (record {
          cache = r.cache;
          options = r.options;
          entries = r.entries.items;
          calls = r.calls.total;
        }) };
}

/// Puts a call and its reply at the end of the list, and counts it at its seat.
fn note<K, V, G: Ledger, A: Allocator>(
    entries: &mut Vec<(TraceCall<K, V>, Reply<K, V, A>), A>,
    calls: &mut Book<G>,
    seat: &mut Seat<G>,
    call: TraceCall<K, V>,
    reply: Reply<K, V, A>,
)
    requires room { vec_len entries.old < vec_capacity entries.old }
    ensures entries { entries.new.items ≡ entries.old.items ++ (call, reply) ∷ [] }
    ensures calls { calls.new.total ≡ calls.old.total + 1 }
    ensures seat { seat.new ≡ record seat.old { calls = seat.old.calls + 1 } }
{
    seat.count(calls);
    entries.push_reserved((call, reply));
}

impl<
    K: Eq + Hash + Clone + Drop,
    V: Clone + Drop,
    We: Weighter<K, V>,
    B: BuildHasher,
    L: Lifecycle<K, V>,
    G: Ledger,
    A: Allocator,
> Recorder<K, V, We, B, L, G, A> {
    /// An empty cache of these options, of which no call was made. How many shards they ask for
    /// means nothing here.
    ///
    /// # Errors
    ///
    /// `Memory` where the allocator or the options could not be cloned.
    pub fn new(
        alloc: A,
        options: Options,
        weigher: We,
        builder: B,
        lifecycle: L,
        calls: Book<G>,
    ) -> Result<Self, Refusal>
    where
        A: Clone,
        We: Drop,
        B: Drop,
        L: Drop,
        requires steady { L.steady lifecycle }
        requires none { calls.total ≡ 0 }
        ensures makes { IfOk result (λ recorder. recorder ≡ record {
          cache = made_with (empty_of options) weigher builder lifecycle;
          options = options;
          entries = [];
          calls = 0;
        }) }
        ensures refused { IfErr result (λ refusal. refusal ≡ Refusal.Memory) }
    {
        let own: Result<_, _> = alloc.clone();
        let Ok(own) = own else {
            return Err(Refusal::Memory);
        };
        let kept = copy_of(&options)?;
        Ok(Recorder {
            cache: Cache::with_options(alloc, options, weigher, builder, lifecycle)?,
            options: kept,
            entries: Vec::new(own),
            calls,
        })
    }

    /// Its list, and the book that counted the calls.
    pub fn into_entries(self) -> (Vec<(TraceCall<K, V>, Reply<K, V, A>), A>, Book<G>)
    where
        We: Drop,
        B: Drop,
        L: Drop,
        ensures entries { result.0.items ≡ self.entries }
        ensures calls { result.1.total ≡ self.calls }
        ensures trace { Shows ⟦<Cache<K, V, We, B, L, A> as Ruled>⟧.goes L.RequestState.is_default
            K.eq K.is_clone V.is_clone self result.0.items }
        ensures counted { result.1.total ≡ vec_len result.0 }
    {
        let Recorder {
            cache: _cache,
            options: _options,
            entries,
            calls,
        } = self;
        (entries, calls)
    }

    /// Tells what always holds of it.
    fn facts(&self)
        ensures { IsKept ⟦<Cache<K, V, We, B, L, A> as Ruled>⟧.goes L.RequestState.is_default K.eq
            K.is_clone V.is_clone self.now }
    {
        let _ = &self.calls;
    }

    /// Looks the key up, and clones what it finds. The clones, also those for the list, and room
    /// for them are made first.
    pub fn get(&mut self, seat: &mut Seat<G>, key: &K) -> Result<Option<V>, Refusal>
        // The answer and the recorded reply both show the value that was found.
        ensures kept { IsKept ⟦<Cache<K, V, We, B, L, A> as Ruled>⟧.goes L.RequestState.is_default
            K.eq K.is_clone V.is_clone self.old }
        ensures gets { IfOk result (λ answer. GetsTwice (K.eq key.now) K.is_clone V.is_clone
            key.now self.old self.new answer) }
        ensures counts { OnOk result (Adds self.old self.new seat.old seat.new) }
        ensures refused { OnErr result (Unmade self.old self.new × (seat.new ≡ seat.old)) }
        ensures memory { IfErr result (λ refusal. refusal ≡ Refusal.Memory) }
        ensures options { self.new.options ≡ self.old.options }
        ensures same { self.new.cache ≡ record self.old.cache { state = self.new.cache.state } }
    {
        self.facts();
        let kept: Result<_, _> = key.clone();
        let Ok(kept) = kept else {
            return Err(Refusal::Memory);
        };
        let (answer, shown) = look_twice(&self.cache, key)?;
        let Ok(()) = self.entries.reserve(1) else {
            return Err(Refusal::Memory);
        };
        let _ = self.cache.get(key);
        note(
            &mut self.entries,
            &mut self.calls,
            seat,
            TraceCall::Get(kept),
            Reply::Value(shown),
        );
        Ok(answer)
    }

    /// Inserts a pair, and hands what leaves to the lifecycle, with a request state of its own. The
    /// clones for the list, and room for them, are made first.
    ///
    /// # Errors
    ///
    /// The pair and why. No call was made then, and none is counted.
    pub fn insert(&mut self, seat: &mut Seat<G>, key: K, value: V) -> Result<(), (K, V, Refusal)>
    where
        L::RequestState: Drop,
        ensures kept { IsKept ⟦<Cache<K, V, We, B, L, A> as Ruled>⟧.goes L.RequestState.is_default
            K.eq K.is_clone V.is_clone self.old }
        ensures inserts { OnOk result (IsDoneAlone L.RequestState.is_default
            (InsertsBy ⟦<Cache<K, V, We, B, L, A> as Ruled>⟧.goes no_touches self.old.cache K.eq key
            value result self.new.cache)) }
        ensures notes { OnOk result
            (NotesInsert K.is_clone V.is_clone key value self.old self.new) }
        ensures counts { OnOk result (Adds self.old self.new seat.old seat.new) }
        ensures back { IfErr result (λ back. (back.0 ≡ key) × (back.1 ≡ value)) }
        ensures why { IfErr result (λ back. MayRefuseInsert
            (rules_in ⟦<Cache<K, V, We, B, L, A> as Ruled>⟧.goes no_touches self.old.cache) K.eq key
            self.old.cache.state back.2) }
        ensures refused { OnErr result (Unmade self.old self.new × (seat.new ≡ seat.old)) }
        ensures options { self.new.options ≡ self.old.options }
        ensures same { KeepsTerms self.old.cache self.new.cache }
    {
        self.facts();
        let kept: Result<_, _> = key.clone();
        let copy: Result<_, _> = value.clone();
        let (Ok(kept), Ok(copy)) = (kept, copy) else {
            return Err((key, value, Refusal::Memory));
        };
        let Ok(()) = self.entries.reserve(1) else {
            return Err((key, value, Refusal::Memory));
        };
        self.cache.insert(key, value)?;
        note(
            &mut self.entries,
            &mut self.calls,
            seat,
            TraceCall::Insert(kept, copy),
            Reply::Done,
        );
        Ok(())
    }

    /// Takes the item under the key out. The clones and room for the entry are made first. The list
    /// has the pair itself, and the answer clones of its key and of its value.
    pub fn remove(&mut self, seat: &mut Seat<G>, key: &K) -> Result<Option<(K, V)>, Refusal>
        ensures kept { IsKept ⟦<Cache<K, V, We, B, L, A> as Ruled>⟧.goes L.RequestState.is_default
            K.eq K.is_clone V.is_clone self.old }
        ensures removes { IfOk result (λ answer. RemovesTwice (K.eq key.now)
            (hash_of B.BuildHasher B.Hasher.Hasher self.old.cache.builder
            (K.Hash.hash_input key.now))
            K.is_clone V.is_clone key.now self.old self.new answer) }
        ensures counts { OnOk result (Adds self.old self.new seat.old seat.new) }
        ensures refused { OnErr result (Unmade self.old self.new × (seat.new ≡ seat.old)) }
        ensures memory { IfErr result (λ refusal. refusal ≡ Refusal.Memory) }
        ensures options { self.new.options ≡ self.old.options }
        ensures same { KeepsWork self.old.cache self.new.cache }
    {
        self.facts();
        let kept: Result<_, _> = key.clone();
        let Ok(kept) = kept else {
            return Err(Refusal::Memory);
        };
        let shown = look_at_pair(&self.cache, key)?;
        let Ok(()) = self.entries.reserve(1) else {
            return Err(Refusal::Memory);
        };
        let pair = self.cache.remove(key);
        note(
            &mut self.entries,
            &mut self.calls,
            seat,
            TraceCall::Remove(kept),
            Reply::Pair(pair),
        );
        Ok(shown)
    }
}
