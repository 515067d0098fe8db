//! Keys that leave a shard behind its lock, with what is being loaded for them.
ghost use Rattle.std.specs.Prelude.{◌≡◌, ◌+◌, Bool, not, MatchOption, false, true};
ghost use Rattle.std.specs.Fn.{FnReturnsAt};
ghost use Rattle.std.specs.List.{AllByRecursion};
ghost use Rattle.quick_cache_model.specs.Refusals.{slots_taken};
ghost use Rattle.quick_cache_model.specs.Placeholders.{GivesUpPlaceholder};
ghost use Rattle.quick_cache_shard.specs.Loading.{HasNoneWanted};
ghost use Rattle.quick_cache_shard.specs.Shard.{LosesOnly, UpToOrder, IsSoundShard};
ghost use Rattle.quick_cache_locked.specs.Invalidates.{GivesUpAsked, InvalidatesAsked, IsNextTicket, is_above, is_below, is_between};
ghost use Rattle.quick_cache_locked.specs.Locked.{IsKept};

use crate::locked::LockedShard;
use quick_cache_loading::sharing::{KeptPlaceholder, SharedPlaceholder};
use quick_cache_model::{Lifecycle, Token};
use quick_cache_shard::{Meaning, SharedPlaceholder as _};
use std::alloc::Allocator;
use std::cell::Cell;
use std::hash::{BuildHasher, Hash};

/// Means the placeholders whose tickets lie between two, of those that are named. It notes the least
/// above the first that it is shown.
#[derive(Drop)]
struct Tickets {
    above: Option<u64>,
    below: Option<u64>,
    least: Cell<Option<u64>>,
}

impl Tickets {
    fn between(above: Option<u64>, below: Option<u64>) -> Self
        ensures above { result.above ≡ above }
        ensures below { result.below ≡ below }
    {
        Tickets {
            above,
            below,
            least: Cell::new(None),
        }
    }
}

/// Whether a ticket is above one, if one is named.
fn is_above(least: Option<u64>, ticket: u64) -> bool
    ensures { result ≡ is_above least ticket }
{
    match least {
        Some(least) => least < ticket,
        None => true,
    }
}

/// Whether it is below one, if one is named.
fn is_below(greatest: Option<u64>, ticket: u64) -> bool
    ensures { result ≡ is_below greatest ticket }
{
    match greatest {
        Some(greatest) => ticket < greatest,
        None => true,
    }
}

impl<K: Eq + Hash + Drop, V: Drop, L: Lifecycle<K, V>, A: Allocator> Meaning<
    K,
    KeptPlaceholder<K, V, L, A>,
> for Tickets {
    ghost use Rattle.quick_cache_locked.specs.Invalidates.{is_between};

    ghost means = { λ tickets kept. is_between tickets.above tickets.below kept.ticket };

    fn means(&self, kept: &KeptPlaceholder<K, V, L, A>) -> bool {
        let ticket = kept.ticket();
        if !is_above(self.above, ticket) {
            return false;
        }
        if is_below(self.least.get(), ticket) {
            self.least.set(Some(ticket));
        }
        is_below(self.below, ticket)
    }
}

impl<
    K: Eq + Hash + Drop,
    V: Drop,
    We,
    B: BuildHasher,
    L: Lifecycle<K, V>,
    A: Allocator,
> LockedShard<K, V, We, B, L, A> {
    /// Takes the placeholder out, if it is there.
    pub fn give_up_load(&mut self, placeholder: &SharedPlaceholder<K, V, L, A>)
        ensures gives_up { UpToOrder
            (GivesUpPlaceholder placeholder.now.ticket self.old.state) self.new.state }
        ensures places { LosesOnly self.old.places self.new.places }
        ensures kept { IsKept L.Lifecycle K.eq self.old }
    {
        self.facts();
        self.shard.remove_placeholder(placeholder);
    }

    /// A placeholder whose ticket lies between these two, of those that are named.
    fn load_between(
        &self,
        above: Option<u64>,
        below: Option<u64>,
    ) -> Option<SharedPlaceholder<K, V, L, A>>
        ensures { MatchOption result
            (HasNoneWanted (is_between above below) self.now.state)
            (λ shared. is_between above below shared.ticket ≡ true) }
    {
        let tickets = Tickets::between(above, below);
        let Some(kept) = self.shard.find_placeholder(&tickets) else {
            return None;
        };
        Some(SharedPlaceholder::met(kept, 0, Token::MIN))
    }

    /// The least ticket above this one, as one walk over the slots notes it. Nothing rests on it.
    fn guess_next(&self, above: Option<u64>) -> Option<u64> {
        let tickets = Tickets::between(above, Some(0));
        let _ = self.shard.find_placeholder(&tickets);
        tickets.least.get()
    }

    /// A placeholder whose ticket is above this one, if there is one: of the least, where the guess
    /// is right.
    fn load_above(&self, above: Option<u64>) -> Option<SharedPlaceholder<K, V, L, A>>
        ensures { MatchOption result
            (HasNoneWanted (is_above above) self.now.state)
            (λ shared. is_above above shared.ticket ≡ true) }
    {
        if let Some(guess) = self.guess_next(above) {
            let guessed = self.load_between(above, guess.checked_add(1));
            if guessed.is_some() {
                return guessed;
            }
        }
        self.load_between(above, None)
    }

    /// The placeholder of the least ticket above this one, if there is one.
    fn next_load(&self, above: Option<u64>) -> Option<SharedPlaceholder<K, V, L, A>>
        ensures { MatchOption result
            (HasNoneWanted (is_above above) self.now.state)
            (λ shared. IsNextTicket above shared.ticket self.now.state) }
    {
        let mut next = self.load_above(above)?;
        while let Some(lesser) = self.load_between(above, Some(next.ticket())) {
            next = lesser;
        }
        Some(next)
    }

    /// Takes the placeholder out if its key passes the test, and tells whether it did.
    fn give_up_if<F: Fn(&K) -> bool>(
        &mut self,
        shared: &SharedPlaceholder<K, V, L, A>,
        test: &F,
    ) -> bool
        requires callable { F.IsAlwaysCallable test.now }
        ensures gives_up { GivesUpAsked (FnReturnsAt F.Fn test.now) shared.now.ticket self.old.state
            result self.new.state }
        ensures places { LosesOnly self.old.places self.new.places }
        ensures sound { IsSoundShard K.eq self.old }
    {
        self.shard.facts();
        let Some(key) = self.shard.loading_key(shared) else {
            return false;
        };
        if !test(key) {
            return false;
        }
        self.give_up_load(shared);
        true
    }

    /// Drops the items, and takes out the placeholders, of the keys that pass the test, and tells how
    /// many there were. It looks at each slot, and some three times more for each key being loaded.
    pub fn invalidate_if<F: Fn(&K) -> bool>(&mut self, test: F) -> usize
        requires callable { F.IsAlwaysCallable test }
        // The items of the keys that pass are gone. The others stand, and none moves.
        ensures asks { UpToOrder (InvalidatesAsked (FnReturnsAt F.Fn test) self.old.state)
            self.new.state }
        // Each key that is being loaded afterwards was asked, and does not pass.
        ensures asked { AllByRecursion (λ entry. FnReturnsAt F.Fn test entry.key false)
            self.new.state.loading }
        // The number is of all that is gone.
        ensures number { result + slots_taken self.new.state ≡ slots_taken self.old.state }
        ensures places { LosesOnly self.old.places self.new.places }
        ensures kept { IsKept L.Lifecycle K.eq self.old }
    {
        self.facts();
        let before = self.shard.len();
        self.retain(
            |key: &K, _: &V|
                requires { F.IsAlwaysCallable test }
                ensures { (answer : Bool) × FnReturnsAt F.Fn test key.now answer × (result ≡ not answer) }
            { !test(key) },
        );
        let mut gone = before.saturating_sub(self.shard.len());
        let mut above = None;
        while let Some(shared) = self.next_load(above) {
            above = Some(shared.ticket());
            gone += usize::from(self.give_up_if(&shared, &test));
        }
        gone
    }
}
