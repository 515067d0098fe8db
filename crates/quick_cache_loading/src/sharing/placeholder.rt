//! A key that is being loaded, as threads share it: its state behind a lock of its own.
ghost use Rattle.std.specs.Prelude.{◌≡◌, true, false, Some, IfSome, IfOk, IfErr, IsErr, OnErr};
ghost use Rattle.std.specs.Int.NonZero.{non_zero_u32_get};
ghost use Rattle.futures.specs.Task.{Covers, Keeps};
ghost use Rattle.quick_cache_loading.specs.Fitting.{FitsIfClonesDo};
ghost use Rattle.quick_cache_loading.specs.FromState.{JoinsAt, FillsAt, FromState, LeavesBy, PollsAt, MayNotFill};
ghost use Rattle.quick_cache_loading.specs.LettingGo.{HandsOn};
ghost use Rattle.quick_cache_loading.specs.Tasks.{slots_of_others};
ghost use Rattle.quick_cache_loading.specs.Waiters.{IsTold, IsWanted, WaitingState, by_number, is_refused, is_timeout, told_or_none};
ghost use Rattle.quick_cache_loading.specs.declared.protocol.events.Event.{Event};
ghost use Rattle.quick_cache_loading.specs.Turns.{IsLater, none_left};

use crate::sharing::shard::LoadingShard;
use crate::sharing::shared::SharedPlaceholder;
use crate::sharing::turns::Turns;
use crate::waiting::{Filled, Place, Share, State, Waited, Wants};
use futures::task::{Context, Source};
use quick_cache_model::{Equivalent, Lifecycle, Token};
use std::alloc::{Allocator, Global};
use std::hash::Hash;
use std::sync::{Condvar, Mutex, Wait};
use std::time::Clock;

/// A key that is being loaded. Its state lies behind a lock of its own, which is never held while
/// the lock of a shard is taken. What a call does to the state is said on the call of `State` that
/// it makes under the lock.
#[derive(Drop)]
pub struct Placeholder<K: Eq + Drop, V: Drop, L: Lifecycle<K, V>, A: Allocator = Global> {
    /// The hash of the key.
    pub hash: u64,
    /// The slot that it was made for.
    pub idx: Token,
    /// The number by which it is told from each other placeholder of its shard.
    pub ticket: u64,
    /// What a task that waits registers with.
    pub source: Source,
    state: Mutex<State<K, V, L, A>>,
    ready: Condvar,
}

impl<K: Eq + Drop, V: Drop, L: Lifecycle<K, V>, A: Allocator> Placeholder<K, V, L, A> {
    /// The placeholder of this state, whose life has not begun. It takes no lock.
    pub fn new(hash: u64, idx: Token, state: State<K, V, L, A>) -> Self
        ensures hash { result.hash ≡ hash }
        ensures idx { result.idx ≡ idx }
        ensures ticket { result.ticket ≡ state.ticket }
    {
        Placeholder {
            hash,
            idx,
            ticket: state.ticket(),
            source: Source::new(),
            state: Mutex::new(state),
            ready: Condvar::new(),
        }
    }

    /// Hands the guard of a share on where anyone waits. Else the share comes back: a guard is given
    /// up only while the lock of the shard is held. It takes the state's lock.
    pub fn hand_on<R: Wait>(&self, rt: &R, share: Share) -> Result<(), Share>
        ensures hands_on { FromState (λ (old new : WaitingState K V). HandsOn share old new result) }
        ensures back { IfErr result (λ back. back ≡ share) }
    {
        match self.state.lock(rt).hand_on(share) {
            Ok(unroused) => Ok(unroused.rouse(&self.ready)),
            Err(share) => Err(share),
        }
    }
}

impl<K: Eq + Hash + Drop, V: Clone, L: Lifecycle<K, V>, A: Allocator> Placeholder<K, V, L, A> {
    /// Fills it with a value that fits the key, and wakes who waits, under the state's lock. What it
    /// gives tells the shard so.
    ///
    /// # Errors
    ///
    /// The share and the value, where either the share or the key is of another placeholder.
    pub fn fill<R: Wait>(
        &self,
        rt: &R,
        key: &K,
        share: Share,
        value: V,
    ) -> Result<Filled, (Share, V)>
        requires fits { L.fits key.now value }
        ensures fills { IfOk result (λ filled.
            FromState (λ (old new : WaitingState K V).
            FillsAt V.is_clone share value filled.waited old new)) }
        ensures refused { OnErr result
            (FromState (λ (old new : WaitingState K V). MayNotFill key.now share old)) }
        ensures filled { IfOk result (λ filled. filled.ticket ≡ share) }
        ensures back { IfErr result (λ back. (back.0 ≡ share) × (back.1 ≡ value)) }
    {
        match self.state.lock(rt).fill(key, share, value) {
            Ok(unroused) => Ok(unroused.rouse(&self.ready)),
            Err(back) => Err(back),
        }
    }

    /// Gives the guard of a share up, or hands it on where anyone waits by now, while the lock of the
    /// shard is held. It takes the state's lock.
    pub fn give_up<S: LoadingShard<K, V, L, A>, R: Wait>(
        &self,
        rt: &R,
        locked: &mut S,
        share: Share,
    )
        requires share { share ≡ self.now.ticket }
        ensures leaves { FromState (λ (old new : WaitingState K V). LeavesBy share Event.Abandon
            old.tasks (S.gives_up share locked.old locked.new) (locked.new ≡ locked.old) old new) }
    {
        let mut state = self.state.lock(rt);
        let unroused = state.abandon(share);
        drop(state);
        if let Some(ended) = unroused.rouse(&self.ready) {
            ended.settle(locked, &SharedPlaceholder::named(self));
        }
    }

    /// Withdraws a waiter, while the lock of the shard is held. It takes the state's lock.
    pub fn withdraw<S: LoadingShard<K, V, L, A>, R: Wait>(
        &self,
        rt: &R,
        locked: &mut S,
        place: Place,
    )
        requires place { place.ticket ≡ self.now.ticket }
        ensures leaves { FromState (λ (old new : WaitingState K V). LeavesBy place.ticket
            (Event.Cancel place.number) (slots_of_others place.number old.tasks)
            (S.gives_up place.ticket locked.old locked.new) (locked.new ≡ locked.old) old new) }
    {
        let mut state = self.state.lock(rt);
        let unroused = state.cancel(place);
        drop(state);
        if let Some(ended) = unroused.rouse(&self.ready) {
            ended.settle(locked, &SharedPlaceholder::named(self));
        }
    }

    /// One comes to load the value or to wait for it, while the lock of the shard is held, as the
    /// shard itself bears witness. It takes the state's lock, and gives the place of one who waits.
    ///
    /// # Errors
    ///
    /// What one is told who does not wait.
    pub fn join<S: LoadingShard<K, V, L, A>, Q: Equivalent<K>, R: Wait>(
        &self,
        rt: &R,
        _locked: &mut S,
        query: &Q,
        wants: Wants,
        is_over: bool,
    ) -> Result<Place, Waited<V>>
        ensures enters { FromState (JoinsAt V.is_clone (Q.equivalent query.now) wants
            self.now.ticket is_over (by_number result)) }
        ensures place { IfOk result (λ place. place.ticket ≡ self.now.ticket) }
        ensures shard { _locked.new ≡ _locked.old }
        ensures over { is_over ≡ true → IsErr result }
        ensures timely { is_over ≡ false → IfErr result (λ told. is_timeout told ≡ false) }
        // One who wants no value is shown none, and so asks for no clone of it.
        ensures told { IfErr result (IsTold self.now.ticket (IsWanted wants
            (FitsIfClonesDo L.fits V.is_clone (Q.equivalent query.now)))) }
    {
        let mut state = self.state.lock(rt);
        if state.ticket() != self.ticket || state.has_ended(wants) {
            return Err(Waited::Again);
        }
        state.join(query, is_over)
    }

    /// A task looks whether the guard or the value has come to its waiter, and leaves its waker
    /// where it goes on waiting, by its place. It takes the state's lock, and waits for nothing else.
    pub fn poll<Q: Equivalent<K>, R: Wait>(
        &self,
        rt: &R,
        place: Place,
        query: &Q,
        wants: Wants,
        cx: &mut Context<'_>,
    ) -> Result<Waited<V>, Place>
        ensures looks { FromState (PollsAt V.is_clone (Q.equivalent query.now) wants place false
            (told_or_none result)) }
        ensures place { IfErr result (λ kept. kept ≡ place) }
        ensures timely { IfOk result (λ told. is_timeout told ≡ false) }
        ensures told { IfOk result (IsTold place.ticket (IsWanted wants
            (FitsIfClonesDo L.fits V.is_clone (Q.equivalent query.now)))) }
        // One who wants no value asks for no memory, and is not refused.
        ensures refused { wants ≡ Wants.End → IfOk result (λ told. is_refused told ≡ false) }
        ensures registered { OnErr result (Covers cx.new (λ s. s ≡ self.now.source.id)) }
        ensures kept { Keeps cx.old cx.new }
    {
        self.state
            .lock(rt)
            .poll_as_task(place, query, wants, &self.source, cx)
    }

    /// Waits until the guard or the value comes to a waiter. It takes the state's lock, and lets it
    /// go while it sleeps.
    pub fn wait<Q: Equivalent<K>, R: Wait>(
        &self,
        rt: &R,
        place: Place,
        query: &Q,
        wants: Wants,
    ) -> Waited<V>
        ensures looks { FromState (PollsAt V.is_clone (Q.equivalent query.now) wants place false
            (Some result)) }
        ensures timely { is_timeout result ≡ false }
        ensures told { IsTold place.ticket (IsWanted wants
            (FitsIfClonesDo L.fits V.is_clone (Q.equivalent query.now))) result }
        ensures refused { wants ≡ Wants.End → is_refused result ≡ false }
    {
        let mut place = place;
        for _ in rt.forever() {
            let mut state = self.state.lock(rt);
            match state.poll(place, query, wants, false) {
                Ok(told) => return told,
                Err(kept) => place = kept,
            }
            drop(self.ready.wait(rt, state));
        }
        unreachable!()
    }

    /// Waits as `wait` does, for so many turns at most. A turn that ends by time is counted.
    pub fn wait_within<Q: Equivalent<K>, R: Wait + Clock>(
        &self,
        rt: &R,
        place: Place,
        query: &Q,
        wants: Wants,
        turns: &mut Turns,
    ) -> Waited<V>
        ensures looks { FromState (PollsAt V.is_clone (Q.equivalent query.now) wants place
            (none_left turns.new.limit turns.new.ended) (Some result)) }
        // Its time is over only where no turn is left.
        ensures timely { is_timeout result ≡ true → none_left turns.new.limit turns.new.ended ≡ true }
        ensures counts { IsLater turns.old turns.new }
        ensures told { IsTold place.ticket (IsWanted wants
            (FitsIfClonesDo L.fits V.is_clone (Q.equivalent query.now))) result }
        ensures refused { wants ≡ Wants.End → is_refused result ≡ false }
    {
        if !turns.is_counted() {
            return self.wait(rt, place, query, wants);
        }
        let mut place = place;
        for _ in rt.forever() {
            let mut state = self.state.lock(rt);
            match state.poll(place, query, wants, turns.is_over()) {
                Ok(told) => return told,
                Err(kept) => place = kept,
            }
            turns.wait(rt, &self.ready, state);
        }
        unreachable!()
    }
}
