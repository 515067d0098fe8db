//! A cache that threads share behind one lock, with the list of its calls.
ghost use Rattle.std.specs.Prelude.{◌≡◌, ◌≢◌, ◌+◌, IfOk, IfErr, OnOk, OnErr, vec_len};
ghost use Rattle.quick_cache_model.specs.Hashing.{hash_of};
ghost use Rattle.quick_cache_unsync.specs.Touches.{no_touches};
ghost use Rattle.quick_cache_traced.specs.Recorded.{FromSome, WasMade, GetsTwice, NotesInsert, RemovesTwice, MayRefuseInsert, Adds, Unmade};
ghost use Rattle.quick_cache_traced.specs.Seats.{parts_of, calls_of};
ghost use Rattle.quick_cache_shard.specs.Alone.{IsDoneAlone};
ghost use Rattle.quick_cache_shard.specs.Steps.{InsertsBy, rules_in};

use crate::call::TraceCall;
use crate::gathering::{has_all, merged};
use crate::recorder::Recorder;
use crate::seat::{PARTS, Seat};
use quick_cache_model::{Lifecycle, Refusal, Reply, Weighter};
use quick_cache_options::options::Options;
use quick_cache_shard::Ruled;
use quick_cache_unsync::Cache;
use std::alloc::{Allocator, Global};
use std::hash::{BuildHasher, Hash};
use std::sync::ledger::{Blank, Ledger};
use std::sync::{Mutex, Wait};

/// A cache that threads share behind one lock. It keeps the list of its calls and replies for good.
#[derive(Drop)]
pub struct Traced<
    K: Eq + Hash + Clone + Drop,
    V: Clone + Drop,
    We: Weighter<K, V>,
    B: BuildHasher,
    L: Lifecycle<K, V>,
    G: Ledger,
    A: Allocator = Global,
> {
    recorder: Mutex<Recorder<K, V, We, B, L, G, A>>,
}

impl<
    K: Eq + Hash + Clone + Drop,
    V: Clone + Drop,
    We: Weighter<K, V>,
    B: BuildHasher,
    L: Lifecycle<K, V>,
    G: Ledger,
    A: Allocator,
> Traced<K, V, We, B, L, G, A> {
    /// An empty cache of these options, and the seat with every part. How many shards they ask for
    /// means nothing to it.
    ///
    /// # Errors
    ///
    /// `Memory` where the allocator or the options could not be cloned.
    pub fn new(
        alloc: A,
        blank: Blank,
        options: Options,
        weigher: We,
        builder: B,
        lifecycle: L,
    ) -> Result<(Self, Seat<G>), Refusal>
    where
        A: Clone,
        We: Drop,
        B: Drop,
        L: Drop,
        requires name { blank.name ≡ G.name }
        requires parts { blank.parts ≡ G.parts }
        requires all { G.parts ≡ PARTS }
        requires steady { L.steady lifecycle }
        ensures seat { IfOk result (λ made. made.1 ≡ record { parts = PARTS; calls = 0 }) }
        ensures refused { IfErr result (λ refusal. refusal ≡ Refusal.Memory) }
    {
        let (calls, share) = blank.open::<G>();
        let recorder = Recorder::new(alloc, options, weigher, builder, lifecycle, calls)?;
        let traced = Traced {
            recorder: Mutex::new(recorder),
        };
        Ok((traced, Seat::new(PARTS, share)))
    }

    /// Looks the key up, and clones what it finds.
    ///
    /// # Errors
    ///
    /// `Memory`: no call was made then, and none is counted.
    pub fn get<R: Wait>(&self, rt: &R, seat: &mut Seat<G>, key: &K) -> Result<Option<V>, Refusal>
        // The answer is that of a step on the cache behind the lock, whose recorded reply shows the
        // same value.
        ensures answers { IfOk result (λ answer. WasMade {M = A}
            ⟦<Cache<K, V, We, B, L, A> as Ruled>⟧.goes L.RequestState.is_default K.eq K.is_clone
            V.is_clone (λ old new. GetsTwice (K.eq key.now) K.is_clone V.is_clone key.now old new
            answer × Adds old new seat.old seat.new)) }
        ensures counts { OnOk result (seat.new ≡ record seat.old { calls = seat.old.calls + 1 }) }
        ensures refused { OnErr result (seat.new ≡ seat.old) }
        ensures memory { IfErr result (λ refusal. refusal ≡ Refusal.Memory) }
    {
        self.recorder.lock(rt).get(seat, key)
    }

    /// Inserts a pair, and hands what leaves to the lifecycle.
    ///
    /// # Errors
    ///
    /// The pair and why: no call was made then, and none is counted.
    pub fn insert<R: Wait>(
        &self,
        rt: &R,
        seat: &mut Seat<G>,
        key: K,
        value: V,
    ) -> Result<(), (K, V, Refusal)>
    where
        L::RequestState: Drop,
        ensures answers { OnOk result (WasMade {M = A}
            ⟦<Cache<K, V, We, B, L, A> as Ruled>⟧.goes L.RequestState.is_default K.eq K.is_clone
            V.is_clone (λ old new. IsDoneAlone L.RequestState.is_default
            (InsertsBy ⟦<Cache<K, V, We, B, L, A> as Ruled>⟧.goes no_touches old.cache K.eq key
            value result new.cache) × NotesInsert K.is_clone V.is_clone key value old new
            × Adds old new seat.old seat.new)) }
        ensures counts { OnOk result (seat.new ≡ record seat.old { calls = seat.old.calls + 1 }) }
        ensures refused { OnErr result (seat.new ≡ seat.old) }
        ensures back { IfErr result (λ back. (back.0 ≡ key) × (back.1 ≡ value)) }
        // There was no memory for the entry, or the cache behind the lock refused the pair.
        ensures why { IfErr result (λ back. WasMade {M = A}
            ⟦<Cache<K, V, We, B, L, A> as Ruled>⟧.goes L.RequestState.is_default K.eq K.is_clone
            V.is_clone (λ old new. Unmade old new × MayRefuseInsert
            (rules_in ⟦<Cache<K, V, We, B, L, A> as Ruled>⟧.goes no_touches old.cache) K.eq key
            old.cache.state back.2)) }
    {
        self.recorder.lock(rt).insert(seat, key, value)
    }

    /// Takes the item under the key out, and gives clones of its key and of its value. The list has
    /// the pair itself.
    ///
    /// # Errors
    ///
    /// `Memory`: no call was made then, and none is counted.
    pub fn remove<R: Wait>(
        &self,
        rt: &R,
        seat: &mut Seat<G>,
        key: &K,
    ) -> Result<Option<(K, V)>, Refusal>
        ensures answers { IfOk result (λ answer. WasMade {M = A}
            ⟦<Cache<K, V, We, B, L, A> as Ruled>⟧.goes L.RequestState.is_default K.eq K.is_clone
            V.is_clone (λ old new. RemovesTwice (K.eq key.now)
            (hash_of B.BuildHasher B.Hasher.Hasher old.cache.builder (K.Hash.hash_input key.now))
            K.is_clone V.is_clone key.now old new answer
            × Adds old new seat.old seat.new)) }
        ensures counts { OnOk result (seat.new ≡ record seat.old { calls = seat.old.calls + 1 }) }
        ensures refused { OnErr result (seat.new ≡ seat.old) }
        ensures memory { IfErr result (λ refusal. refusal ≡ Refusal.Memory) }
    {
        self.recorder.lock(rt).remove(seat, key)
    }

    /// The list of the calls and replies, where the seats have all parts.
    ///
    /// # Errors
    ///
    /// All that was given, where the seats lack a part.
    pub fn gather(
        self,
        seats: Vec<Seat<G>>,
    ) -> Result<Vec<(TraceCall<K, V>, Reply<K, V, A>), A>, (Self, Vec<Seat<G>>)>
    where
        We: Drop,
        B: Drop,
        L: Drop,
        requires { G.parts ≡ PARTS }
        // The list is one of a run of the cache for one thread, from an empty cache.
        ensures trace { IfOk result (λ list. FromSome ⟦<Cache<K, V, We, B, L, A> as Ruled>⟧.goes
            L.RequestState.is_default K.eq K.is_clone V.is_clone list.items) }
        // It is as long as the seats' counts together.
        ensures calls { IfOk result (λ list. vec_len list ≡ calls_of seats.items) }
        ensures whole { OnOk result (parts_of seats.items ≡ PARTS) }
        ensures lacks { IfErr result (λ back. parts_of seats.items ≢ PARTS) }
        ensures back { IfErr result (λ back. (back.0 ≡ self) × (back.1 ≡ seats)) }
    {
        if !has_all(&seats) {
            return Err((self, seats));
        }
        let mut all = merged(seats);
        let Traced { recorder } = self;
        let (entries, mut calls) = recorder.into_inner().into_entries();
        calls.audit(&mut all);
        Ok(entries)
    }
}
