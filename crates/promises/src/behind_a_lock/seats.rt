//! What those rely on who write, look and remove by a seat: each call is made of its key's shard, and
//! told as it was made.
ghost use Rattle.std.specs.Prelude.{◌≡◌, Ok, IfOk, OnOk};
ghost use Rattle.quick_cache_model.specs.Hashing.{hash_of};
ghost use Rattle.quick_cache_model.specs.declared.calls.call.Call.{Call};
ghost use Rattle.quick_cache_model.specs.declared.calls.reply.Reply.{Reply};
ghost use Rattle.quick_cache_locked.specs.Peeks.{Peeks};
ghost use Rattle.quick_cache_shard.specs.Shard.{Shard};
ghost use Rattle.quick_cache_sync.specs.Shards.{shard_of_hash};
ghost use Rattle.quick_cache_history.specs.declared.entry.Entry.{Entry};
ghost use Rattle.quick_cache_history.specs.KeptShards.{AtEnd};
ghost use Rattle.quick_cache_history.specs.Loads.{Gives};
ghost use Rattle.quick_cache_history.specs.Seats.{Extends};

use quick_cache_history::{Naming, Recorded, Seat};
use quick_cache_model::{Lifecycle, Refusal, Weighter};
use quick_cache_shard::Ruled;
use std::hash::{BuildHasher, Hash};
use std::sync::Wait;

/// A write is the last call that its seat has seen then, and one of its key's shard.
pub fn write_to_its_shard<
    K: Eq + Hash + Drop,
    V: Drop,
    We: Weighter<K, V>,
    B: BuildHasher,
    L: Lifecycle<K, V>,
    J: Naming,
    R: Wait,
>(
    rt: &R,
    cache: &Recorded<K, V, We, B, L, J>,
    seat: &mut Seat<K, V, J>,
    key: K,
    value: V,
) -> Result<(), (K, V, Refusal)>
where
    L::RequestState: Drop,
    requires fits { L.fits key value }
    ensures { OnOk result (Extends seat.old (Entry.Made seat.old.turn seat.new.turn
        (shard_of_hash cache.now.shards
        (hash_of B.BuildHasher B.Hasher.Hasher cache.now.builder (K.hash_input key)))
        (Call.Insert key value) Reply.Done) seat.new) }
{
    cache.insert(rt, seat, key, value)
}

/// A removal is told so too, with the pair that it gave: what the shard's calls before it, each made
/// once, had left under the key.
pub fn remove_from_its_shard<
    K: Eq + Hash + Drop,
    V: Drop,
    We: Weighter<K, V>,
    B: BuildHasher,
    L: Lifecycle<K, V>,
    J: Naming,
    R: Wait,
>(rt: &R, cache: &Recorded<K, V, We, B, L, J>, seat: &mut Seat<K, V, J>, key: &K) -> Option<(K, V)>
    ensures extends { Extends seat.old (Entry.Made seat.old.turn seat.new.turn
        (shard_of_hash cache.now.shards
        (hash_of B.BuildHasher B.Hasher.Hasher cache.now.builder (K.hash_input key.now)))
        (Call.Remove key.now) (Reply.Pair result)) seat.new }
    ensures run { AtEnd ⟦<Recorded<K, V, We, B, L, J> as Ruled>⟧.goes L.RequestState.is_default
        K.eq (shard_of_hash cache.now.shards
        (hash_of B.BuildHasher B.Hasher.Hasher cache.now.builder (K.hash_input key.now)))
        seat.new.seen (λ shard. Unit {0}) }
{
    cache.remove(rt, seat, key)
}

/// A look shows what the key's shard has at the end of what the seat has then seen: the writes in it,
/// each made once, and no others.
pub fn look_at_its_shard<
    K: Eq + Hash + Drop,
    V: Clone,
    We: Weighter<K, V>,
    B: BuildHasher,
    L: Lifecycle<K, V>,
    J: Naming,
    R: Wait,
>(
    rt: &R,
    cache: &Recorded<K, V, We, B, L, J>,
    seat: &mut Seat<K, V, J>,
    key: &K,
) -> Result<Option<V>, Refusal>
    ensures { AtEnd ⟦<Recorded<K, V, We, B, L, J> as Ruled>⟧.goes L.RequestState.is_default K.eq
        (shard_of_hash cache.now.shards
        (hash_of B.BuildHasher B.Hasher.Hasher cache.now.builder (K.hash_input key.now)))
        seat.new.seen (λ (shard : Shard K V We B L).
        Peeks (K.eq key.now) V.is_clone shard.state result) }
{
    cache.get(rt, seat, key)
}

/// Who loads a value is given what the key's shard shows at the end of what its seat has then seen, or
/// a clone of its own, which is that shard's last insert: no value is given that nobody put in.
pub fn load_into_its_shard<
    K: Eq + Hash + Drop,
    V: Clone,
    We: Weighter<K, V>,
    B: BuildHasher,
    L: Lifecycle<K, V>,
    J: Naming,
    R: Wait,
>(
    rt: &R,
    cache: &Recorded<K, V, We, B, L, J>,
    seat: &mut Seat<K, V, J>,
    key: K,
    value: V,
) -> Result<V, Refusal>
where
    L::RequestState: Drop,
    requires fits { L.fits key value }
    ensures { IfOk result (λ given. Gives ⟦<Recorded<K, V, We, B, L, J> as Ruled>⟧.goes
        L.RequestState.is_default K.eq V.is_clone (shard_of_hash cache.now.shards
        (hash_of B.BuildHasher B.Hasher.Hasher cache.now.builder (K.hash_input key))) key
        (λ own. own ≡ value) given seat.old seat.new) }
{
    let loader = move || -> Result<V, Refusal>
        ensures { result ≡ Ok value }
    { Ok(value) };
    match cache.get_or_insert_with(rt, seat, key, loader) {
        Ok(loaded) => loaded,
        Err(refusal) => Err(refusal),
    }
}
