//! What is told of entries that leave.
ghost use Rattle.std.specs.Prelude.{◌≡◌, ℕ, Bool, false, IsTrue};

/// Decides which entries are pinned, and is told of each entry that is evicted, replaced or turned
/// away.
///
/// A call makes one request state, hands it to each hook in the order of the events, and drops it
/// at its end. An entry that is removed, cleared or drained is told to no hook.
///
/// What a hook does is stated by a relation between the state before, the pair, and the state
/// after. Rust gives the hooks default bodies; here each lifecycle writes its own, since the body
/// of a default cannot be proved to meet a relation that is chosen later.
pub trait Lifecycle<K: Eq + Drop, V: Drop> {
    /// What a call keeps between its hooks.
    type RequestState: Default;

    /// Whether pinning depends on the key and the value alone.
    ghost steady: { Self → Type 0 } = { λ _. Unit {0} };

    /// Where it is steady, which pairs are pinned.
    ghost pinned: { Self → K → V → Bool } = { λ _ _ _. false };

    /// What holds of every value that is stored under a key: a fact for contracts, of the type
    /// alone.
    ghost fits: { K → V → Type 0 } = { λ _ _. Unit {0} };

    /// From a state, at a pair, to the state after and the value that is left.
    ghost before_evict_gives: { Self → Self.RequestState → K → V → Self.RequestState → V → Type 0 };

    /// From a state, at a pair that leaves, to the state after.
    ghost on_evict_gives: { Self → Self.RequestState → K → V → Self.RequestState → Type 0 };

    ghost on_evict_cold_gives: { Self → Self.RequestState → K → V → Self.RequestState → Type 0 };

    ghost on_evict_hot_gives: { Self → Self.RequestState → K → V → Self.RequestState → Type 0 };

    /// Whether the entry may not be evicted. A write can still take its place.
    fn is_pinned(&self, key: &K, val: &V) -> bool
        ensures { steady self.now → result ≡ pinned self.now key.now val.now };

    /// Called before an entry is evicted, and before a pair that is too heavy is turned away. An
    /// entry whose weight is then 0 stays, and a pair that is then light enough is admitted.
    fn before_evict(&self, state: &mut Self::RequestState, key: &K, val: &mut V)
        ensures { before_evict_gives self.now state.old key.now val.old state.new val.new };

    /// Takes a pair that left. The two calls below commonly hand theirs to it.
    fn on_evict(&self, state: &mut Self::RequestState, key: K, val: V)
        ensures { on_evict_gives self.now state.old key val state.new };

    /// Takes a pair that left the cold ring or was turned away.
    fn on_evict_cold(&self, state: &mut Self::RequestState, key: K, val: V)
        ensures { on_evict_cold_gives self.now state.old key val state.new };

    /// Takes a pair that left the hot ring.
    fn on_evict_hot(&self, state: &mut Self::RequestState, key: K, val: V)
        ensures { on_evict_hot_gives self.now state.old key val state.new };

    /// A value that fits still does when `before_evict` has changed it.
    ghost keeps_fits: { (lifecycle : Self) (old : Self.RequestState) (key : K) (val : V)
        (new : Self.RequestState) (left : V)
        → before_evict_gives lifecycle old key val new left → fits key val → fits key left };

    /// A value fits each of two equal keys, or none of them.
    ghost same_fits: { (first second : K) (val : V) → IsTrue (K.eq first second)
        → fits first val → fits second val };
}
