//! A listener that keeps what leaves in a call, so that the caller goes through it behind the call.
ghost use Rattle.std.specs.Prelude.{◌≡◌, ◌-◌, None, Some, IfSome, option_map, vec_capacity, vec_len};
ghost use Rattle.std.specs.List.{FoldsTo};
ghost use Rattle.quick_cache_listeners.specs.Kept.{Keeps};

use crate::causes::cause::Cause;
use crate::causes::listener::ListenerWhy;
use crate::listener::Listener;
use std::marker::Model;

/// The pairs that left in a call, in the order in which they left.
///
/// The default has no list to keep them in, since a list needs an allocator, and counts them as
/// lost.
#[derive(Debug, Drop)]
pub struct Collected<K, V> {
    pairs: Option<Vec<(K, V)>>,
    lost: u64,
}

impl<K, V> Model for Collected<K, V> {
    ghost use Rattle.std.specs.Prelude.{option_map};
    ghost use Rattle.quick_cache_listeners.specs.Kept.{Kept, room_in};

    ghost Value = { Kept K V };

    ghost view = { λ c. record {
      pairs = option_map (λ pairs. pairs.items) c.pairs;
      room = room_in c.pairs;
      lost = c.lost;
    } };
}

impl<K, V> Default for Collected<K, V> {
    ghost is_default = { λ kept. kept ≡ record { pairs = None; room = 0; lost = 0 } };

    fn default() -> Self {
        Collected {
            pairs: None,
            lost: 0,
        }
    }
}

impl<K: Drop, V: Drop> Collected<K, V> {
    /// Keeps pairs behind those of a list. As many as it has room for are never lost.
    pub fn with(pairs: Vec<(K, V)>) -> Self
        ensures { result ≡ record {
          pairs = Some pairs.items;
          room = vec_capacity pairs - vec_len pairs;
          lost = 0;
        } }
    {
        Collected {
            pairs: Some(pairs),
            lost: 0,
        }
    }

    /// How many pairs were dropped, since there was no list, or no memory for one more.
    pub fn lost(&self) -> u64
        ensures { result ≡ self.now.lost }
    {
        self.lost
    }

    /// The list, if there is one.
    pub fn into_pairs(self) -> Option<Vec<(K, V)>>
        ensures { option_map (λ pairs. pairs.items) result ≡ self.pairs }
    {
        let Collected { pairs, lost: _ } = self;
        pairs
    }

    /// Hands each pair that was kept to a closure, in their order.
    pub fn each<F: FnMut(K, V)>(self, tell: F)
        requires callable { F.IsAlwaysCallable tell }
        ensures told { IfSome self.pairs (λ pairs. (last : F) × FoldsTo (λ old pair new. F.step old
            pair.0 pair.1 tt new) tell pairs last) }
    {
        if let Some(pairs) = self.into_pairs() {
            hand_each(pairs, tell);
        }
    }
}

/// Hands each pair of a list to a closure.
fn hand_each<K: Drop, V: Drop, F: FnMut(K, V)>(pairs: Vec<(K, V)>, mut tell: F)
    requires callable { F.IsAlwaysCallable tell }
    ensures told { (last : F) × FoldsTo (λ old pair new. F.step old pair.0 pair.1 tt new) tell
        pairs.items last }
{
    let mut rest = pairs.into_iter();
    while let Some((key, val)) = rest.next() {
        tell(key, val);
    }
}

/// Keeps what leaves in the list of the state, behind what is there.
#[derive(Debug, Clone, Default, Drop)]
pub struct Collect;

impl<K: Drop, V: Drop> Listener<K, V> for Collect {
    type State = Collected<K, V>;

    ghost tells = { λ _. Keeps };

    fn tell(&self, state: &mut Collected<K, V>, key: K, val: V) {
        if let Some(pairs) = &mut state.pairs {
            if pairs.push((key, val)).is_ok() {
                return;
            }
        }
        state.lost = state.lost.saturating_add(1);
    }
}

/// Keeps what leaves with its cause, as `(key, (value, cause))`: a closure that `each` is handed is
/// told of it behind the call, where no lock is held.
impl<K: Drop, V: Drop> ListenerWhy<K, V> for Collect {
    type State = Collected<K, (V, Cause)>;

    ghost tells = { λ _ old key value cause new. Keeps old key (value, cause) new };

    fn tell(&self, state: &mut Collected<K, (V, Cause)>, key: K, val: V, cause: Cause) {
        Listener::tell(self, state, key, (val, cause));
    }
}

/// Does as the inner listener, with a state that is owed to the caller: it is not `Drop`. So a call
/// that makes a request state of its own, as `insert`, does not compile, and of a state that is handed
/// to a call nobody can lose sight.
#[derive(Debug, Clone, Default, Drop)]
pub struct Owing<L>(pub L);

/// A state that its holder takes apart, `let Owed(state) = owed;`, since it cannot be let go.
#[derive(Debug, Default)]
pub struct Owed<S>(pub S);

impl<K, V, L: Listener<K, V>> Listener<K, V> for Owing<L> {
    type State = Owed<L::State>;

    ghost tells = { λ owing old key value new. L.tells owing.0 old.0 key value new.0 };

    fn tell(&self, state: &mut Owed<L::State>, key: K, val: V) {
        self.0.tell(&mut state.0, key, val);
    }
}

impl<K, V, L: ListenerWhy<K, V>> ListenerWhy<K, V> for Owing<L> {
    type State = Owed<L::State>;

    ghost tells = { λ owing old key value cause new. L.tells owing.0 old.0 key value cause new.0 };

    fn tell(&self, state: &mut Owed<L::State>, key: K, val: V, cause: Cause) {
        self.0.tell(&mut state.0, key, val, cause);
    }
}
