//! What a user relies on who saves a cache, and puts saved pairs back.
ghost use Rattle.std.specs.Prelude.{◌≡◌, ◌++◌, ◌∷◌, [], ℕ, List, Some, IfOk, min};
ghost use Rattle.std.specs.Bool.{OnTrue, OnFalse};
ghost use Rattle.std.specs.Iterator.{Drains, IsFinite};
ghost use Rattle.quick_cache_model.specs.CacheState.{Item};
ghost use Rattle.quick_cache_model.specs.declared.queue.Queue.{Queue};

use quick_cache_unsync::{Cache, Lifecycle, Options, Queue, Refusal, Weighter};
use std::alloc::Global;
use std::hash::{BuildHasher, Hash};

/// What is saved first is the item of the hot ring that is visited next, if there is one.
pub fn first_saved(cache: &Cache<u64, u64>) -> Option<(u64, u64, Queue, u8)>
    ensures { (item : Item ℕ ℕ) (others : List (Item ℕ ℕ)) → cache.now.state.hot ≡ item ∷ others
        → result ≡ Some (item.key, item.value, item.queue, item.mark) }
{
    let (key, value, queue, mark) = cache.saved().next()?;
    Some((*key, *value, queue, mark))
}

/// A cache that was restored took the pairs to the last one.
pub fn restore_to_the_end<
    K: Eq + Hash + Drop,
    V: Drop,
    We: Weighter<K, V> + Drop,
    B: BuildHasher + Drop,
    L: Lifecycle<K, V> + Drop,
    I: Iterator<Item = (K, V, Queue, u8)> + Drop,
>(
    alloc: Global,
    options: Options,
    weigher: We,
    builder: B,
    lifecycle: L,
    pairs: I,
) -> Result<Cache<K, V, We, B, L>, Refusal>
    requires can { I.can_next pairs }
    requires ends { IsFinite (I.remaining pairs) }
    ensures all { IfOk result (λ _. (came : List (K × V × Queue × ℕ))
        × Drains I.next_gives pairs came) }
{
    Cache::restored(alloc, options, weigher, builder, lifecycle, pairs)
}

/// A pair that comes back as a hot one is the last of the hot ring, with its mark or the greatest,
/// and nothing else is. One that does not come back has changed nothing.
pub fn put_back_hot(cache: &mut Cache<u64, u64>, key: u64, value: u64, mark: u8) -> bool
    ensures last { OnTrue result (cache.new.state.hot ≡ cache.old.state.hot ++ record {
      key = key;
      value = value;
      weight = 1;
      mark = min mark cache.old.state.mark_cut;
      reads = 0;
      queue = Queue.Hot;
    } ∷ []) }
    ensures cold { cache.new.state.cold ≡ cache.old.state.cold }
    ensures unchanged { OnFalse result (cache.new.state ≡ cache.old.state) }
{
    match cache.restore(key, value, Queue::Hot, mark) {
        Ok(()) => true,
        Err(_) => false,
    }
}
