//! A copy of a cache's contents.
ghost use Rattle.std.specs.Prelude.{◌≡◌, ℕ, IfOk, IfErr};
ghost use Rattle.quick_cache_model.specs.Hashing.{hash_of};
ghost use Rattle.quick_cache_policy.specs.Contents.{IsSound, state_of, work_of};
ghost use Rattle.quick_cache_policy.specs.Copies.{ClonesAreEqual, IsCopyOf, IsKeptAgain};
ghost use Rattle.quick_cache_policy.specs.Work.{no_work};

use crate::contents::Contents;
use quick_cache_model::{Refusal, SharedPlaceholder, hash_of};
use quick_cache_store::lists::Copying;
use std::alloc::Allocator;
use std::hash::{BuildHasher, Hash};
use std::marker::PhantomData;

// A copy whose keys are hashed by a builder, and which keeps of placeholders what is kept of them.
#[derive(Drop)]
struct HashedAnew<'a, P, B> {
    builder: &'a B,
    placeholders: PhantomData<P>,
}

impl<'a, K: Eq + Hash, P: SharedPlaceholder<K>, B: BuildHasher> Copying<K, P::Kept>
    for HashedAnew<'a, P, B> {
    ghost hash_of = { λ anew key.
        hash_of B.BuildHasher B.Hasher.Hasher anew.builder.now (K.hash_input key) };

    ghost shares = { λ anew. IsKeptAgain P.ticket_of };

    fn hash(&self, key: &K) -> u64 {
        hash_of(self.builder, key)
    }

    fn share(&self, kept: &P::Kept) -> P::Kept {
        P::keep_again(kept)
    }
}

impl<
    K: Eq + Hash + Clone + Drop,
    V: Clone + Drop,
    P: SharedPlaceholder<K>,
    A: Allocator + Clone,
> Contents<K, V, P, A> {
    /// Contents of clones of the keys and values, with the same marks, order and counts, and with
    /// the placeholders of these. Its keys are hashed by that builder. What readers counted, and
    /// was not taken in yet, stays here.
    pub fn try_copy<B: BuildHasher>(&self, builder: &B) -> Result<Self, Refusal>
        requires keys { ClonesAreEqual K.eq K.is_clone }
        ensures copies { IfOk result (λ copy. IsCopyOf K.is_clone V.is_clone
            (state_of P.ticket_of self.now) (state_of P.ticket_of copy)) }
        // By whatever hashes these are sound, the copy is so by those of the builder.
        ensures sound { (hashed : K → ℕ) → IsSound P.ticket_of K.eq hashed self.now
            → IfOk result (IsSound P.ticket_of K.eq
            (λ key. hash_of B.BuildHasher B.Hasher.Hasher builder.now (K.hash_input key))) }
        ensures work { IfOk result (λ copy. work_of copy ≡ no_work) }
        ensures refused { IfErr result (λ refusal. refusal ≡ Refusal.Memory) }
    {
        let alloc: Result<_, _> = self.lists.allocator().clone();
        let Ok(alloc) = alloc else {
            return Err(Refusal::Memory);
        };
        let anew = HashedAnew {
            builder,
            placeholders: PhantomData::<P>,
        };
        Ok(Contents {
            lists: self.lists.try_clone(alloc, &anew)?,
            capacity: self.capacity,
            hot_target: self.hot_target,
            ghost_limit: self.ghost_limit,
            mark_cut: self.mark_cut,
            hits: self.hits,
            misses: self.misses,
            shared_hits: P::Touch::default(),
            shared_misses: P::Touch::default(),
            next_ticket: self.next_ticket,
            advances: 0,
            visits: 0,
        })
    }
}
