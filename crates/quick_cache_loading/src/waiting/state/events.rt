//! What happens to a placeholder: each call is one event of its core.
ghost use Rattle.std.specs.Prelude.{◌≡◌, ◌≢◌, ◌⊎◌, ◌==◌, ◌+◌, ◌<◌, true, false, not, length, is_some, MatchOption, MatchResult, IfSome, IfNone, IfOk, IfErr, IsSome, OnErr};
ghost use Rattle.quick_cache_loading.specs.Core.{is_given_up, waiters_of};
ghost use Rattle.quick_cache_loading.specs.FromState.{MayNotFill};
ghost use Rattle.quick_cache_loading.specs.LoadingStep.{LoadingStep};
ghost use Rattle.quick_cache_loading.specs.LoadingLaws.{given_by};
ghost use Rattle.quick_cache_loading.specs.Fitting.{ShowsFitting};
ghost use Rattle.quick_cache_loading.specs.Waiters.{KeepsKey, KeepsKeyAndNext, has_joined, is_timed_out, waits_on};
ghost use Rattle.quick_cache_loading.specs.Tasks.{has_slot, slots_after_fill, slots_of_others, with_slot};

use crate::protocol::{Answer, Event, step};
use crate::waiting::state::keep;
use crate::waiting::{Filled, Place, Share, State, Unroused};
use quick_cache_model::{Lifecycle, Refusal};
use std::alloc::Allocator;

impl<K: Eq + Drop, V: Clone, L: Lifecycle<K, V>, A: Allocator> State<K, V, L, A> {
    /// Begins a life, and gives the share of its guard.
    pub fn create(&mut self) -> Option<Share>
        ensures event { MatchOption result
            (LoadingStep V.is_clone self.old.core Event.Create Answer.NotNow self.new.core)
            (λ _. LoadingStep V.is_clone self.old.core Event.Create Answer.Created self.new.core) }
        ensures gives { is_some result ≡ is_given_up self.old.core.life }
        ensures share { IfSome result (λ share. share ≡ self.old.ticket) }
        ensures same { self.new ≡ record self.old { core = self.new.core } }
    {
        match step(&mut self.core, Event::Create) {
            Answer::Created => self.share.take(),
            _ => None,
        }
    }

    /// One comes for the value by the next number. It gets its place, and a slot for the waker of a
    /// task, exactly where it joined. It may allocate.
    pub(super) fn add_waiter(&mut self) -> (Answer<V>, Option<Place>)
        requires unspent { self.old.next < u64.MAX }
        ensures event { LoadingStep V.is_clone self.old.core (Event.Join self.old.next) result.0
            self.new.core
            ⊎ ((result.0 ≡ Answer.Refused Refusal.Memory) × (self.new.core ≡ self.old.core)) }
        ensures gives { is_some result.1 ≡ has_joined result.0 }
        ensures place { IfSome result.1
            (λ place. place ≡ record { ticket = self.old.ticket; number = self.old.next }) }
        ensures joined { IsSome result.1 → (self.new.next ≡ self.old.next + 1)
            × (self.new.tasks ≡ with_slot self.old.next self.old.tasks) }
        ensures alone { IfNone result.1 ((self.new.next ≡ self.old.next)
            × (self.new.tasks ≡ self.old.tasks)) }
        ensures same { KeepsKey self.old self.new }
        ensures fits { ShowsFitting L.fits V.is_clone self.old.key result.0 }
    {
        let waiter = self.next;
        if self.tasks.add(waiter).is_err() {
            return (Answer::Refused(Refusal::Memory), None);
        }
        let answer = step(&mut self.core, Event::Join(waiter));
        match answer {
            Answer::Joined => {
                self.next = waiter + 1;
                (Answer::Joined, Some(Place::new(self.ticket, waiter)))
            }
            other => {
                self.tasks.wake(waiter);
                (other, None)
            }
        }
    }

    /// Fills the placeholder, and takes the share back. What it gives tells the shard so.
    ///
    /// # Errors
    ///
    /// The share and the value, where the share or the key is of another placeholder, or no guard is
    /// held.
    pub fn fill(&mut self, key: &K, share: Share, value: V) -> Result<Unroused<Filled>, (Share, V)>
        requires fits { L.fits key.now value }
        ensures event { MatchResult result
            (λ filled. (filled ≡ record {
              ticket = self.old.ticket;
              waited = not (length (waiters_of self.old.core.life) == 0);
            }) × LoadingStep V.is_clone self.old.core (Event.Fill value) Answer.Done self.new.core
            × (share ≡ self.old.ticket))
            (λ back. self.new.core ≡ self.old.core) }
        // All tasks are woken by a fill, and by nothing else.
        ensures woken { self.new.tasks ≡ slots_after_fill result self.old.tasks }
        ensures back { IfErr result (λ back. (back.0 ≡ share) × (back.1 ≡ value)) }
        ensures refused { OnErr result (MayNotFill key.now share self.old) }
        ensures same { KeepsKeyAndNext self.old self.new }
    {
        if share.ticket() != self.ticket || *key != self.key || !self.core.is_held() {
            return Err((share, value));
        }
        let waited = self.has_waiters();
        step(&mut self.core, Event::Fill(value));
        keep(&mut self.share, share);
        self.tasks.wake_all();
        Ok(Unroused::new(Filled::new(self.ticket, waited)))
    }

    /// A waiter looks whether the guard or the value has come. It keeps its place exactly where it
    /// goes on waiting.
    pub fn take(&mut self, place: Place) -> Result<(Answer<V>, Option<Share>), Place>
        requires place { place.ticket ≡ self.old.ticket }
        ensures event { MatchResult result
            (λ given. (waits_on given.0 ≡ false) × (is_timed_out given.0 ≡ false)
            × LoadingStep V.is_clone self.old.core (Event.Take place.number) given.0
            self.new.core)
            (λ kept. (kept ≡ place)
            × LoadingStep V.is_clone self.old.core (Event.Take place.number) Answer.Waiting
            self.new.core) }
        ensures waits { OnErr result (has_slot place.number self.new.tasks ≡ true) }
        ensures gives { IfOk result (λ given. is_some given.1 ≡ (given_by given.0 == 1)) }
        ensures share { IfOk result (λ given. IfSome given.1
            (λ share. share ≡ self.old.ticket)) }
        ensures fits { IfOk result (λ given. ShowsFitting L.fits V.is_clone self.old.key given.0) }
        ensures same { self.new ≡ record self.old { core = self.new.core } }
    {
        let answer = step(&mut self.core, Event::Take(place.number()));
        match answer {
            Answer::Waiting => Err(place),
            Answer::Guard => {
                place.end();
                Ok((Answer::Guard, self.share.take()))
            }
            other => {
                place.end();
                Ok((other, None))
            }
        }
    }

    /// A waiter's time is over: it takes what has come, or waits no more. Its slot is gone.
    pub fn time_out(&mut self, place: Place) -> (Answer<V>, Option<Share>)
        requires place { place.ticket ≡ self.old.ticket }
        ensures event { LoadingStep V.is_clone self.old.core (Event.TimeOut place.number) result.0
            self.new.core }
        ensures gives { is_some result.1 ≡ (given_by result.0 == 1) }
        ensures share { IfSome result.1 (λ share. share ≡ self.old.ticket) }
        ensures ends { waits_on result.0 ≡ false }
        ensures woken { self.new.tasks ≡ slots_of_others place.number self.old.tasks }
        ensures fits { ShowsFitting L.fits V.is_clone self.old.key result.0 }
        ensures same { KeepsKeyAndNext self.old self.new }
    {
        self.is_sound();
        let waiter = place.end();
        self.tasks.wake(waiter);
        let answer = step(&mut self.core, Event::TimeOut(waiter));
        let share = match answer {
            Answer::Guard => self.share.take(),
            _ => None,
        };
        (answer, share)
    }
}
