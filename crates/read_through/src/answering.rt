//! How an answer is found that no look under the lock to read gave: by a guard.
ghost use Rattle.std.specs.Prelude.{◌≡◌, ◌↔◌, IsTrue, Ok, Err, None, IfOk, IfErr, IfSome, false};
ghost use Rattle.quick_cache_guard.specs.Answers.{IsLoadRefusal};
ghost use Rattle.quick_cache_guard.specs.Entries.{IfGivenBack, IfGuarded, IfRetained, IsRefusedAsLoad, is_late};
ghost use Rattle.quick_cache_expiring.specs.Looks.{IfRetain, Stays};
ghost use Rattle.quick_cache_expiring.specs.Moments.{Serves};
ghost use Rattle.read_through.specs.Answers.{Answers, AnswersLate, GivesClones, IsOf};
ghost use Rattle.read_through.specs.Renewals.{ChoosesToClaim, ChoosesToRenew, Claims, Renews};
ghost use Rattle.read_through.specs.Givens.{IfFailed, IfFresh, IfStale, is_unasked};

use crate::fresh::Fresh;
use crate::given::{Given, Source};
use crate::lives::Lives;
use crate::pace::Pace;
use crate::reading::{ReadThrough, ShardOf};
use quick_cache_expiring::Loaded;
use quick_cache_guard::{EntryResult, GuardResult, LoadingShard, PlaceholderGuard};
use quick_cache_model::{Lifecycle, Refusal, Weighter};
use quick_cache_shard::EntryAction;
use std::alloc::Allocator;
use std::hash::{BuildHasher, Hash};
use std::sync::Wait;
use std::sync::atomic::Ordering;
use std::time::{Clock, Duration};

impl<
    K: Eq + Hash + Clone + Drop,
    V: Clone + Drop,
    F,
    S: Source<K, V>,
    A: Allocator + Clone,
    Li: Lives<K, V>,
    We: Weighter<K, V>,
    B: BuildHasher,
> ReadThrough<K, V, F, S, A, Li, We, B> {
    /// Answers what is stored and serves, or what the load gives, which is called once at most; and
    /// where the caller takes it, what is within the grace. It is for what `served` does not answer;
    /// where nothing is there, the guard comes of its look.
    #[inline(never)]
    pub(crate) fn answer<R: Wait + Clock, E: Drop, G: FnOnce() -> Result<V, E>>(
        &self,
        rt: &R,
        key: &K,
        now: u64,
        refresh_after: u64,
        takes_old: bool,
        load: G,
    ) -> Result<Result<Given<V, E>, E>, Refusal>
        requires keys { (copy : K) → K.is_clone key.now copy → IsTrue (K.eq key.now copy) }
        requires callable { G.pre load }
        requires loads { (value : V) → G.post load (Ok value) → S.gives key.now now value }
        requires clones { GivesClones S.gives V.is_clone }
        ensures fresh { IfOk result (λ given. IfFresh given
            (Answers S.gives K.eq key.now (Li.life_of self.now.lives key.now) now)) }
        ensures stale { IfOk result (λ given. IfStale given (AnswersLate S.gives K.eq key.now
            (Li.life_of self.now.lives key.now) self.now.grace now)) }
        ensures asked { takes_old ≡ false → IfOk result (λ given. is_unasked given ≡ false) }
        ensures error { IfOk result (λ given. IfFailed given (λ error. G.post load (Err error))) }
        ensures refused { IfErr result IsLoadRefusal }
    {
        match self.cache.get_value_or_guard(rt, key, None) {
            GuardResult::Value(found) => {
                let life = self.lives.life(key, &found.value, found.moment);
                if !found.serves(life, now) {
                    self.not_hits.fetch_add(1, Ordering::SeqCst);
                    if takes_old && found.is_within(life, self.grace, now) {
                        self.too_old.fetch_add(1, Ordering::SeqCst);
                        return Ok(self.answer_late(rt, key, now, found, load));
                    }
                    return self.answer_anew(rt, key, now, load);
                }
                if found.is_due(refresh_after, now) {
                    let pace = Pace::steady(refresh_after);
                    if let Some(claimed) = self.claims(rt, key, now, pace) {
                        let loaded = load();
                        self.count_load(&loaded);
                        return Ok(self.renewed(rt, key, now, claimed, found, loaded));
                    }
                }
                Ok(Ok(Given::Fresh(found.value)))
            }
            GuardResult::Guard(guard) => {
                let mut guard = Some(guard);
                let loaded = load();
                self.count_load(&loaded);
                Ok(fill_with(&mut guard, key, now, loaded))
            }
            GuardResult::Timeout => unreachable!(),
            // What could not be cloned may be too old to be.
            GuardResult::Refused(Refusal::Memory) => self.answer_anew(rt, key, now, load),
            GuardResult::Refused(refusal) => Err(refusal),
        }
    }

    /// Answers what is within the grace. One call asks the loader for it, and again when `retry_after`
    /// has passed; all others are answered it at once.
    fn answer_late<R: Wait + Clock, E: Drop, G: FnOnce() -> Result<V, E>>(
        &self,
        rt: &R,
        key: &K,
        now: u64,
        found: Loaded<V>,
        load: G,
    ) -> Result<Given<V, E>, E>
        requires keys { (copy : K) → K.is_clone key.now copy → IsTrue (K.eq key.now copy) }
        requires callable { G.pre load }
        requires loads { (value : V) → G.post load (Ok value) → S.gives key.now now value }
        requires clones { GivesClones S.gives V.is_clone }
        requires late { AnswersLate S.gives K.eq key.now (Li.life_of self.now.lives key.now)
            self.now.grace now found.value }
        ensures fresh { IfFresh result
            (Answers S.gives K.eq key.now (Li.life_of self.now.lives key.now) now) }
        ensures stale { IfStale result (AnswersLate S.gives K.eq key.now
            (Li.life_of self.now.lives key.now) self.now.grace now) }
        ensures error { IfFailed result (λ error. G.post load (Err error)) }
    {
        let pace = Pace {
            after_load: 0,
            after_try: self.retry_after,
        };
        if found.is_due(pace.pause(&found), now) {
            if let Some(claimed) = self.claims(rt, key, now, pace) {
                let loaded = load();
                self.count_load(&loaded);
                return self.renewed(rt, key, now, claimed, found, loaded);
            }
        }
        Ok(Given::Unasked(found.value))
    }

    /// The same where what was found is too old, or could not be cloned.
    fn answer_anew<R: Wait + Clock, E: Drop, G: FnOnce() -> Result<V, E>>(
        &self,
        rt: &R,
        key: &K,
        now: u64,
        load: G,
    ) -> Result<Result<Given<V, E>, E>, Refusal>
        requires keys { (copy : K) → K.is_clone key.now copy → IsTrue (K.eq key.now copy) }
        requires callable { G.pre load }
        requires loads { (value : V) → G.post load (Ok value) → S.gives key.now now value }
        requires clones { GivesClones S.gives V.is_clone }
        ensures fresh { IfOk result (λ given. IfFresh given
            (Answers S.gives K.eq key.now (Li.life_of self.now.lives key.now) now)) }
        ensures stale { IfOk result (λ given. IfStale given (AnswersLate S.gives K.eq key.now
            (Li.life_of self.now.lives key.now) self.now.grace now)) }
        ensures error { IfOk result (λ given. IfFailed given (λ error. G.post load (Err error))) }
        ensures asked { IfOk result (λ given. is_unasked given ≡ false) }
        ensures refused { IfErr result IsLoadRefusal }
    {
        match self.look_anew(rt, key, now, None) {
            EntryResult::Retained(value) => Ok(Ok(Given::Fresh(value))),
            EntryResult::Replaced(guard, old) => {
                let mut guard = Some(guard);
                let loaded = load();
                self.count_load(&loaded);
                Ok(self.fill_or_keep(&mut guard, key, now, old, loaded))
            }
            EntryResult::Vacant(guard) => {
                let mut guard = Some(guard);
                let loaded = load();
                self.count_load(&loaded);
                Ok(fill_with(&mut guard, key, now, loaded))
            }
            // There was no memory for a guard.
            EntryResult::Removed(_, _) => {
                let loaded = load();
                self.count_load(&loaded);
                Ok(as_given(loaded))
            }
            EntryResult::Timeout => unreachable!(),
            EntryResult::Refused(refusal) => Err(refusal),
        }
    }

    /// Looks at what is stored under the key once more, by an entry call, since another may have
    /// loaded it anew by now, and since that sees the value itself: a clone of what serves, or the
    /// right to load what does not.
    pub(crate) fn look_anew<'a, R: Wait + Clock>(
        &'a self,
        rt: &'a R,
        key: &K,
        now: u64,
        limit: Option<Duration>,
    ) -> EntryResult<
        V,
        K,
        Loaded<V>,
        PlaceholderGuard<'a, K, Loaded<V>, Fresh<S>, ShardOf<K, V, S, A, We, B>, R, A>,
    >
        requires keys { (copy : K) → K.is_clone key.now copy → IsTrue (K.eq key.now copy) }
        requires clones { GivesClones S.gives V.is_clone }
        ensures fresh { IfRetained result
            (Answers S.gives K.eq key.now (Li.life_of self.now.lives key.now) now) }
        // What gave its place was the source's, and was over.
        ensures source { IfGivenBack result (λ old.
            IsOf S.gives K.eq key.now old.moment old.value) }
        ensures over { IfGivenBack result (λ old.
            Serves (Li.life_of self.now.lives key.now old.value old.moment) old.moment now → ⊥) }
        ensures key { IfGuarded result (λ own. IsTrue (K.eq key.now own)) }
        ensures refused { IsRefusedAsLoad result }
        ensures timely { limit ≡ None → is_late result ≡ false }
    {
        let lives = &self.lives;
        let looks = |_key: &K, loaded: &mut Loaded<V>| -> EntryAction<Result<V, Refusal>>
            ensures same { loaded.new ≡ loaded.old }
            ensures serves { Stays result ↔ Serves
                (Li.life_of lives.entry.now key.entry.now loaded.old.value loaded.old.moment)
                loaded.old.moment now }
            ensures told { IfRetain result (λ told. IfOk told (V.is_clone loaded.old.value)) }
            ensures refused { IfRetain result
                (λ told. IfErr told (λ refusal. refusal ≡ Refusal.Memory)) }
        { loaded.look(lives.life(key, &loaded.value, loaded.moment), now) };
        match self.cache.entry(rt, key, limit, looks) {
            EntryResult::Retained(Ok(value)) => EntryResult::Retained(value),
            EntryResult::Retained(Err(refusal)) => {
                self.not_hits.fetch_add(1, Ordering::SeqCst);
                EntryResult::Refused(refusal)
            }
            EntryResult::Replaced(guard, old) => {
                self.too_old.fetch_add(1, Ordering::SeqCst);
                EntryResult::Replaced(guard, old)
            }
            EntryResult::Removed(own, old) => {
                self.too_old.fetch_add(1, Ordering::SeqCst);
                EntryResult::Removed(own, old)
            }
            EntryResult::Vacant(guard) => EntryResult::Vacant(guard),
            EntryResult::Timeout => EntryResult::Timeout,
            EntryResult::Refused(refusal) => EntryResult::Refused(refusal),
        }
    }

    /// Counts a load, and whether it failed.
    pub(crate) fn count_load<T, E>(&self, loaded: &Result<T, E>) {
        self.loads.fetch_add(1, Ordering::SeqCst);
        if loaded.is_err() {
            self.failed_loads.fetch_add(1, Ordering::SeqCst);
        }
    }

    /// Whether this call is to ask the loader anew for what is stored: where nobody has within that
    /// time, this is the moment at which it was asked last from now on. It tells the moment of the
    /// value.
    fn claims<R: Wait + Clock>(&self, rt: &R, key: &K, now: u64, pace: Pace) -> Option<u64>
        requires keys { (copy : K) → K.is_clone key.now copy → IsTrue (K.eq key.now copy) }
        // What is claimed stood under the key, and nobody had asked for it anew.
        ensures claims { IfSome result
            (Claims ⟦<Fresh<S> as Lifecycle<K, Loaded<V>>>⟧.fits (K.eq key.now) pace now) }
    {
        let claims = |_key: &K, loaded: &mut Loaded<V>| -> EntryAction<Option<u64>>
            ensures chooses { ChoosesToClaim pace now loaded.old result loaded.new }
        { claim(loaded, pace, now) };
        match self.cache.entry(rt, key, Some(Duration::ZERO), claims) {
            EntryResult::Retained(claimed) => {
                self.not_hits.fetch_add(1, Ordering::SeqCst);
                claimed
            }
            _ => None,
        }
    }

    /// Answers what was loaded in the place of what was found, which it replaces where that is still
    /// what was claimed. Where the load failed, what was found is answered.
    fn renewed<R: Wait + Clock, E: Drop>(
        &self,
        rt: &R,
        key: &K,
        now: u64,
        claimed: u64,
        found: Loaded<V>,
        loaded: Result<V, E>,
    ) -> Result<Given<V, E>, E>
        requires keys { (copy : K) → K.is_clone key.now copy → IsTrue (K.eq key.now copy) }
        requires gave { IfOk loaded (S.gives key.now now) }
        requires clones { GivesClones S.gives V.is_clone }
        ensures fresh { IfFresh result (λ value. loaded ≡ Ok value) }
        ensures stale { IfStale result (λ value. value ≡ found.value) }
        ensures failed { IfFailed result (λ error. loaded ≡ Err error) }
        ensures asked { is_unasked result ≡ false }
    {
        match loaded {
            Ok(value) => {
                self.renews(rt, key, now, claimed, &value);
                Ok(Given::Fresh(value))
            }
            Err(error) => Ok(Given::Stale {
                value: found.value,
                error,
            }),
        }
    }

    /// Stores a clone of what was loaded now in the place of what was claimed, where that stands there
    /// still, and tells whether it does so. What another stored meanwhile stays, and what was removed
    /// does not come back.
    fn renews<R: Wait + Clock>(&self, rt: &R, key: &K, now: u64, claimed: u64, value: &V) -> bool
        requires keys { (copy : K) → K.is_clone key.now copy → IsTrue (K.eq key.now copy) }
        requires gave { S.gives key.now now value.now }
        requires clones { GivesClones S.gives V.is_clone }
        // What gave its place stood under the key, and is what was claimed.
        ensures renews { IsTrue result → Renews ⟦<Fresh<S> as Lifecycle<K, Loaded<V>>>⟧.fits
            (K.eq key.now) V.is_clone claimed now value.now }
    {
        // One that is gone is not loaded by an entry call, which would count that.
        if !self.cache.contains_key(rt, key) {
            return false;
        }
        let renews = |own: &K, loaded: &mut Loaded<V>| -> EntryAction<bool>
            requires same { IsTrue (K.eq key.now own.now) }
            ensures same { IsTrue (K.eq key.entry.now own.now) }
            ensures chooses { ChoosesToRenew V.is_clone claimed now value.entry.now loaded.old
                result loaded.new }
        {
            // Its contract speaks of the key.
            let _key = key;
            renew(loaded, claimed, now, value)
        };
        match self.cache.entry(rt, key, Some(Duration::ZERO), renews) {
            EntryResult::Retained(renewed) => {
                self.not_hits.fetch_add(1, Ordering::SeqCst);
                renewed
            }
            _ => false,
        }
    }

    /// Fills by the guard, and where the load failed with the old value while its life and the grace
    /// are not over, which is answered beside the error then.
    fn fill_or_keep<T: LoadingShard<K, Loaded<V>, Fresh<S>, A>, R: Wait, E: Drop>(
        &self,
        guard: &mut Option<PlaceholderGuard<'_, K, Loaded<V>, Fresh<S>, T, R, A>>,
        key: &K,
        now: u64,
        old: Loaded<V>,
        loaded: Result<V, E>,
    ) -> Result<Given<V, E>, E>
        requires same { IfSome guard.old (λ guard. IsTrue (K.eq key.now guard)) }
        requires gave { IfOk loaded (S.gives key.now now) }
        requires source { IsOf S.gives K.eq key.now old.moment old.value }
        requires clones { GivesClones S.gives V.is_clone }
        ensures fresh { IfFresh result (λ value. loaded ≡ Ok value) }
        ensures stale { IfStale result (AnswersLate S.gives K.eq key.now
            (Li.life_of self.now.lives key.now) self.now.grace now) }
        ensures failed { IfFailed result (λ error. loaded ≡ Err error) }
        ensures asked { is_unasked result ≡ false }
    {
        match loaded {
            Ok(value) => fill_with(guard, key, now, Ok(value)),
            Err(error) => {
                let life = self.lives.life(key, &old.value, old.moment);
                if !old.is_within(life, self.grace, now) {
                    return Err(error);
                }
                fill_by(guard, key, &old);
                Ok(Given::Stale {
                    value: old.value,
                    error,
                })
            }
        }
    }
}

/// Claims what is due, and tells its moment.
fn claim<V>(loaded: &mut Loaded<V>, pace: Pace, now: u64) -> EntryAction<Option<u64>>
    ensures chooses { ChoosesToClaim pace now loaded.old result loaded.new }
{
    if loaded.claim(pace.pause(loaded), now) {
        return EntryAction::Retain(Some(loaded.moment));
    }
    EntryAction::Retain(None)
}

/// Writes a clone of what was loaded now where a value is of the moment that was claimed, and its
/// loader was last asked now, and tells whether it does.
fn renew<V: Clone>(loaded: &mut Loaded<V>, claimed: u64, now: u64, value: &V) -> EntryAction<bool>
    ensures chooses { ChoosesToRenew V.is_clone claimed now value.now loaded.old result loaded.new }
{
    if loaded.moment != claimed || loaded.asked != now {
        return EntryAction::Retain(false);
    }
    let Ok(copy) = value.clone() else {
        return EntryAction::Retain(false);
    };
    *loaded = Loaded::at(copy, now);
    EntryAction::Retain(true)
}

/// What was loaded, as an answer.
fn as_given<V, E>(loaded: Result<V, E>) -> Result<Given<V, E>, E>
    ensures fresh { IfFresh result (λ value. loaded ≡ Ok value) }
    ensures stale { IfStale result (λ _. ⊥) }
    ensures failed { IfFailed result (λ error. loaded ≡ Err error) }
    ensures asked { is_unasked result ≡ false }
{
    match loaded {
        Ok(value) => Ok(Given::Fresh(value)),
        Err(error) => Err(error),
    }
}

/// What was loaded, of which a clone is put in by the guard.
fn fill_with<
    K: Eq + Hash + Drop,
    V: Clone + Drop,
    S: Source<K, V>,
    T: LoadingShard<K, Loaded<V>, Fresh<S>, A>,
    R: Wait,
    A: Allocator,
    E: Drop,
>(
    guard: &mut Option<PlaceholderGuard<'_, K, Loaded<V>, Fresh<S>, T, R, A>>,
    key: &K,
    now: u64,
    loaded: Result<V, E>,
) -> Result<Given<V, E>, E>
    requires same { IfSome guard.old (λ guard. IsTrue (K.eq key.now guard)) }
    requires gave { IfOk loaded (S.gives key.now now) }
    requires clones { GivesClones S.gives V.is_clone }
    ensures fresh { IfFresh result (λ value. loaded ≡ Ok value) }
    ensures stale { IfStale result (λ _. ⊥) }
    ensures failed { IfFailed result (λ error. loaded ≡ Err error) }
    ensures asked { is_unasked result ≡ false }
{
    match loaded {
        Ok(value) => Ok(Given::Fresh(store(guard, key, now, value))),
        Err(error) => Err(error),
    }
}

/// Puts a clone of what was loaded now in by the guard, and gives it back.
pub(crate) fn store<
    K: Eq + Hash + Drop,
    V: Clone + Drop,
    S: Source<K, V>,
    T: LoadingShard<K, Loaded<V>, Fresh<S>, A>,
    R: Wait,
    A: Allocator,
>(
    guard: &mut Option<PlaceholderGuard<'_, K, Loaded<V>, Fresh<S>, T, R, A>>,
    key: &K,
    now: u64,
    value: V,
) -> V
    requires same { IfSome guard.old (λ guard. IsTrue (K.eq key.now guard)) }
    requires gave { S.gives key.now now value }
    requires clones { GivesClones S.gives V.is_clone }
    ensures { result ≡ value }
{
    let loaded = Loaded::at(value, now);
    fill_by(guard, key, &loaded);
    loaded.value
}

/// Puts a clone of what was loaded in by the guard, which is let go where there is none. It is taken
/// from where it stands, since a call that takes it by value gets no proof.
fn fill_by<
    K: Eq + Hash + Drop,
    V: Clone + Drop,
    S: Source<K, V>,
    T: LoadingShard<K, Loaded<V>, Fresh<S>, A>,
    R: Wait,
    A: Allocator,
>(
    guard: &mut Option<PlaceholderGuard<'_, K, Loaded<V>, Fresh<S>, T, R, A>>,
    key: &K,
    loaded: &Loaded<V>,
)
    requires same { IfSome guard.old (λ guard. IsTrue (K.eq key.now guard)) }
    requires source { IsOf S.gives K.eq key.now loaded.now.moment loaded.now.value }
    requires clones { GivesClones S.gives V.is_clone }
{
    if let Some(guard) = guard.take() {
        if let Ok(copy) = loaded.clone() {
            drop(guard.insert(copy));
        }
    }
}
