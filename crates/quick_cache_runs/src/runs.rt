//! Lists of calls, made one after another.
ghost use Rattle.std.specs.Prelude.{◌≡◌, ◌≤◌, ◌<◌, ◌+◌, ◌++◌, [], ◌∷◌, All, length, vec_len, vec_capacity};
ghost use Rattle.quick_cache_model.specs.CacheState.{IsValid};
ghost use Rattle.quick_cache_model.specs.Answered.{AlwaysClones, IsAnswered, AreAnswered, replies_of};
ghost use Rattle.quick_cache_runs.specs.Asked.{IfAsks, IfLoads};
ghost use Rattle.quick_cache_runs.specs.Made.{MakesAsked, RunsAsked, RunsCallsBy, ConservesCallsBy};
ghost use Rattle.quick_cache_runs.specs.Room.{AreInRoom, NeedsRoom, entry_refusal};
ghost use Rattle.quick_cache_shard.specs.Copies.{ClonesAreEqual};
ghost use Rattle.quick_cache_shard.specs.Shard.{KeepsTerms};

use crate::calls::CallMaker;
use quick_cache_model::{Call, Lifecycle, Reply, Weighter};
use quick_cache_shard::Ruled;
use quick_cache_unsync::Cache;
use std::alloc::Allocator;
use std::hash::{BuildHasher, Hash};

// The state of a cache is valid. The call does nothing.
fn valid<K: Eq + Hash, V, We, B: BuildHasher, L, A: Allocator>(cache: &Cache<K, V, We, B, L, A>)
    ensures { IsValid K.eq cache.now.state }
{
    let _ = cache.shard().len();
}

impl<
    F: Fn(&K, &V) -> bool + Drop,
    M: Allocator + Clone,
    K: Eq + Hash + Clone + Drop,
    V: Clone + Drop,
    We: Weighter<K, V>,
    B: BuildHasher,
    L: Lifecycle<K, V>,
    A: Allocator,
> CallMaker<F, M, K, V, We, B, L, A> {
    /// Makes one call, and puts its reply at the end of the list, which has room for it.
    #[inline(always)]
    fn make(
        replies: &mut Vec<Reply<K, V, M>, M>,
        cache: &mut Cache<K, V, We, B, L, A>,
        call: Call<K, V, F>,
        state: &mut L::RequestState,
    )
        requires keys { IfLoads (ClonesAreEqual K.eq K.is_clone) call }
        requires callable { IfAsks (λ asked. F.IsAlwaysCallable asked) call }
        requires room { vec_len replies.old < vec_capacity replies.old }
        ensures made { (reply : Reply K V M) × (replies.new.items ≡ replies.old.items ++ reply ∷ [])
            × MakesAsked F.Fn ⟦<Cache<K, V, We, B, L, A> as Ruled>⟧.goes K.eq K.is_clone V.is_clone
            cache.old state.old call reply cache.new state.new
            × (AlwaysClones V.is_infallible → IsAnswered call reply)
            × (AlwaysClones K.is_infallible → AlwaysClones V.is_infallible
            → NeedsRoom cache.old.room (entry_refusal call reply)) }
        ensures room { cache.old.room ≤ cache.new.room + 1 }
        ensures same { KeepsTerms cache.old cache.new }
        ensures len { vec_len replies.new ≡ vec_len replies.old + 1 }
        ensures capacity { vec_capacity replies.new ≡ vec_capacity replies.old }
    {
        let reply = Self::act(replies.allocator(), cache, call, state);
        replies.push_reserved(reply);
    }

    /// Makes the calls in their order, and puts their replies into this list, which is empty and has
    /// room for them.
    fn make_all(
        mut replies: Vec<Reply<K, V, M>, M>,
        cache: &mut Cache<K, V, We, B, L, A>,
        calls: Vec<Call<K, V, F>, M>,
        state: &mut L::RequestState,
    ) -> Vec<Reply<K, V, M>, M>
        requires keys { All (IfLoads (ClonesAreEqual K.eq K.is_clone)) calls.items }
        requires callable { All (IfAsks (λ asked. F.IsAlwaysCallable asked)) calls.items }
        requires none { replies.items ≡ [] }
        requires room { length calls.items ≤ vec_capacity replies }
        ensures runs { RunsAsked F.Fn ⟦<Cache<K, V, We, B, L, A> as Ruled>⟧.goes K.eq K.is_clone
            V.is_clone cache.old state.old calls.items result.items cache.new state.new }
        ensures same { KeepsTerms cache.old cache.new }
        ensures answered { AlwaysClones V.is_infallible → AreAnswered calls.items result.items }
        ensures asks { AlwaysClones K.is_infallible → AlwaysClones V.is_infallible
            → AreInRoom cache.old.room calls.items result.items }
    {
        for call in calls {
            Self::make(&mut replies, cache, call, state);
        }
        replies
    }
}

/// Makes the calls in their order, and gives their replies. The hooks are handed the one request
/// state.
///
/// Room for the replies is made before the first call, and the clones that a reply shows before its
/// call. The list of a walk or a drain has a clone of the allocator.
///
/// # Errors
///
/// The replies so far and the calls that were not made, where there is no room for the replies.
pub fn run<
    F: Fn(&K, &V) -> bool + Drop,
    K: Eq + Hash + Clone + Drop,
    V: Clone + Drop,
    We: Weighter<K, V>,
    B: BuildHasher,
    L: Lifecycle<K, V>,
    A: Allocator,
    M: Allocator + Clone,
>(
    alloc: M,
    cache: &mut Cache<K, V, We, B, L, A>,
    calls: Vec<Call<K, V, F>, M>,
    state: &mut L::RequestState,
) -> Result<Vec<Reply<K, V, M>, M>, (Vec<Reply<K, V, M>, M>, Vec<Call<K, V, F>, M>)>
    requires keys { All (IfLoads (ClonesAreEqual K.eq K.is_clone)) calls.items }
    requires callable { All (IfAsks (λ asked. F.IsAlwaysCallable asked)) calls.items }

    // Where pinning is steady, and each predicate answers as a pure test does.
    ensures runs { RunsCallsBy F.Fn ⟦<Cache<K, V, We, B, L, A> as Ruled>⟧.goes K.eq K.is_clone
        V.is_clone cache.old state.old calls.items result cache.new state.new }
    // So no pair is lost, made, or told of twice.
    ensures conserves { ConservesCallsBy F.Fn ⟦<Cache<K, V, We, B, L, A> as Ruled>⟧.goes K.eq
        K.is_clone V.is_clone cache.old state.old calls.items result cache.new state.new }
    ensures same { KeepsTerms cache.old cache.new }
    // A look is refused only where a clone fails.
    ensures answered { AlwaysClones V.is_infallible → AreAnswered calls.items (replies_of result) }
    // Where no clone fails, a call that takes an entry in is refused for want of memory only where
    // the calls before it took all the room.
    ensures asks { AlwaysClones K.is_infallible → AlwaysClones V.is_infallible
        → AreInRoom cache.old.room calls.items (replies_of result) }
{
    valid(cache);
    let mut replies = Vec::new(alloc);
    let Ok(()) = replies.reserve(calls.len()) else {
        return Err((replies, calls));
    };
    Ok(CallMaker::<F, M, K, V, We, B, L, A>::make_all(replies, cache, calls, state))
}
