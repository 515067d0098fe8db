//! Walks over a shard behind its lock, one step at a time.
ghost use Rattle.std.specs.Prelude.{IfOk, IfSome};
ghost use Rattle.quick_cache_shard.specs.Copies.{ClonesAreEqual};
ghost use Rattle.quick_cache_shard.specs.Predicates.{Answers};
ghost use Rattle.quick_cache_shard.specs.TakesWanted.{TakesNextWanted};
ghost use Rattle.quick_cache_shard.specs.WalksFrom.{number_or_zero};
ghost use Rattle.quick_cache_locked.specs.Asked.{MayBeAskedOfFitting};
ghost use Rattle.quick_cache_locked.specs.Fitting.{ClonesFit};
ghost use Rattle.quick_cache_locked.specs.Locked.{IsKept};
ghost use Rattle.quick_cache_locked.specs.Walks.{ShowsNext, TakesNext};
ghost use Rattle.quick_cache_shard.specs.Shard.{KeepsWork};

use crate::locked::LockedShard;
use quick_cache_model::{Lifecycle, Refusal};
use quick_cache_shard::Token;
use std::alloc::Allocator;
use std::hash::{BuildHasher, Hash};

impl<
    K: Eq + Hash + Clone,
    V: Clone,
    We,
    B: BuildHasher,
    L: Lifecycle<K, V>,
    A: Allocator,
> LockedShard<K, V, We, B, L, A> {
    /// Clones the item of the least token above this one, or of the least token of all where none
    /// is given. It is no use of the item. Where clones are as their keys and values are, what it
    /// gives fits its key.
    pub fn show_next(&self, after: Option<Token>) -> Result<Option<(Token, K, V)>, Refusal>
        ensures shows { ShowsNext self.now (number_or_zero after) K.is_clone V.is_clone result }
        ensures fits { ClonesAreEqual K.eq K.is_clone → ClonesFit L.fits V.is_clone → IfOk result
            (λ found. IfSome found (λ shown. L.fits shown.1 shown.2)) }
        ensures kept { IsKept L.Lifecycle K.eq self.now }
    {
        self.facts();
        let mut walk = self.shard.iter_from(after);
        match walk.next() {
            None => Ok(None),
            Some((token, key, value)) => {
                let Ok(own) = key.clone() else {
                    return Err(Refusal::Memory);
                };
                let Ok(copy) = value.clone() else {
                    return Err(Refusal::Memory);
                };
                Ok(Some((token, own, copy)))
            }
        }
    }
}

impl<
    K: Eq + Hash + Drop,
    V: Drop,
    We,
    B: BuildHasher,
    L: Lifecycle<K, V>,
    A: Allocator,
> LockedShard<K, V, We, B, L, A> {
    /// Takes out the item of the least token above this one, or of the least token of all where
    /// none is given. Its value fits its key.
    pub fn take_next(&mut self, after: Option<Token>) -> Option<(Token, K, V)>
        ensures takes { TakesNext self.old (number_or_zero after) result self.new }
        ensures fits { IfSome result (λ taken. L.fits taken.1 taken.2) }
        ensures same { KeepsWork self.old self.new }
        ensures kept { IsKept L.Lifecycle K.eq self.old }
    {
        self.facts();
        self.shard.remove_next(after)
    }

    /// Takes out the first item of greater token than this one that the predicate wants, if it wants
    /// one. The pairs that it sees fit, and so does the one that is given.
    pub fn take_next_if<F: Fn(&K, &V) -> bool>(
        &mut self,
        after: Option<Token>,
        wanted: &F,
    ) -> Option<(Token, K, V)>
        requires callable { MayBeAskedOfFitting L.fits F.Fn wanted.now }
        ensures takes { TakesNextWanted (Answers F.Fn wanted.now) (number_or_zero after) self.old
            result self.new }
        ensures fits { IfSome result (λ taken. L.fits taken.1 taken.2) }
        ensures same { KeepsWork self.old self.new }
        ensures kept { IsKept L.Lifecycle K.eq self.old }
    {
        self.facts();
        self.shard.take_next_if(after, wanted)
    }
}
