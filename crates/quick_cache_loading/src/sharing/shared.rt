//! What the slot of a key that is being loaded shares with those who load it and wait for it.
ghost use Rattle.std.specs.Prelude.{◌≡◌, IfOk, IfSome, is_some};
ghost use Rattle.std.specs.Option.{ForSome};
ghost use Rattle.std.specs.Arc.{arc_value};
ghost use Rattle.std.specs.Int.NonZero.{non_zero_u32_get};

use crate::sharing::placeholder::Placeholder;
use crate::sharing::touches::SharedTouches;
use crate::waiting::State;
use quick_cache_model as placeholder;
use quick_cache_model::{Lifecycle, Refusal, ToKey, Token};
use std::alloc::{Allocator, Global};
use std::hash::Hash;
use std::sync::Arc;

/// A placeholder that is shared. It lacks the placeholder where there were too many owners of it.
#[derive(Drop)]
pub struct SharedPlaceholder<K: Eq + Drop, V: Drop, L: Lifecycle<K, V>, A: Allocator = Global> {
    hash: u64,
    idx: Token,
    ticket: u64,
    placeholder: Option<Arc<Placeholder<K, V, L, A>, A>>,
    ghost of_ticket: { ForSome placeholder (λ shared. (arc_value shared).ticket ≡ ticket) },
}

/// What a slot keeps of it.
#[derive(Drop)]
pub struct KeptPlaceholder<K: Eq + Drop, V: Drop, L: Lifecycle<K, V>, A: Allocator = Global> {
    ticket: u64,
    placeholder: Option<Arc<Placeholder<K, V, L, A>, A>>,
    ghost of_ticket: { ForSome placeholder (λ shared. (arc_value shared).ticket ≡ ticket) },
}

impl<K: Eq + Drop, V: Drop, L: Lifecycle<K, V>, A: Allocator> KeptPlaceholder<K, V, L, A> {
    /// The placeholder's number in its shard.
    pub fn ticket(&self) -> u64
        ensures { result ≡ self.now.ticket }
    {
        self.ticket
    }
}

/// One owner more, if there can be.
fn again<K: Eq + Drop, V: Drop, L: Lifecycle<K, V>, A: Allocator>(
    placeholder: &Option<Arc<Placeholder<K, V, L, A>, A>>,
    ticket: u64,
) -> Option<Arc<Placeholder<K, V, L, A>, A>>
    requires of_ticket { IfSome placeholder.now (λ shared. (arc_value shared).ticket ≡ ticket) }
    ensures of_ticket { IfSome result (λ shared. (arc_value shared).ticket ≡ ticket) }
{
    match placeholder {
        Some(shared) => Arc::try_clone(shared).ok(),
        None => None,
    }
}

impl<K: Eq + Drop, V: Drop, L: Lifecycle<K, V>, A: Allocator> SharedPlaceholder<K, V, L, A> {
    /// The placeholder, for one who loads or waits.
    pub fn into_placeholder(self) -> Option<Arc<Placeholder<K, V, L, A>, A>>
        ensures of_ticket { IfSome result (λ shared. (arc_value shared).ticket ≡ self.ticket) }
        ensures owned { is_some result ≡ is_some self.placeholder }
    {
        self.placeholder
    }

    /// What names the placeholder to its shard, and does not own it. It takes no memory.
    pub fn named(placeholder: &Placeholder<K, V, L, A>) -> Self
        ensures { result.ticket ≡ placeholder.now.ticket }
    {
        SharedPlaceholder {
            hash: placeholder.hash,
            idx: placeholder.idx,
            ticket: placeholder.ticket,
            placeholder: None,
        }
    }

    /// The placeholder's number in its shard.
    pub fn ticket(&self) -> u64
        ensures { result ≡ self.now.ticket }
    {
        self.ticket
    }
}

impl<K: Eq + Hash + Drop, V: Drop, L: Lifecycle<K, V>, A: Allocator> placeholder::SharedPlaceholder<
    K,
> for SharedPlaceholder<K, V, L, A> {
    type Touch = SharedTouches;

    type Kept = KeptPlaceholder<K, V, L, A>;

    ghost hash_of = { λ shared. shared.hash };

    ghost idx_of = { λ shared. non_zero_u32_get shared.idx };

    ghost own_ticket = { λ shared. shared.ticket };

    ghost ticket_of = { λ kept. kept.ticket };

    fn same_as(&self, other: &Self) -> bool {
        self.ticket == other.ticket
    }

    fn hash(&self) -> u64 {
        self.hash
    }

    fn idx(&self) -> Token {
        self.idx
    }

    fn share(&self) -> Self {
        SharedPlaceholder {
            hash: self.hash,
            idx: self.idx,
            ticket: self.ticket,
            placeholder: again(&self.placeholder, self.ticket),
        }
    }

    fn keep(&self) -> KeptPlaceholder<K, V, L, A> {
        KeptPlaceholder {
            ticket: self.ticket,
            placeholder: again(&self.placeholder, self.ticket),
        }
    }

    fn keeps(&self, kept: &KeptPlaceholder<K, V, L, A>) -> bool {
        self.ticket == kept.ticket
    }

    fn met(kept: &KeptPlaceholder<K, V, L, A>, hash: u64, idx: Token) -> Self {
        SharedPlaceholder {
            hash,
            idx,
            ticket: kept.ticket,
            placeholder: again(&kept.placeholder, kept.ticket),
        }
    }

    fn keep_again(kept: &KeptPlaceholder<K, V, L, A>) -> KeptPlaceholder<K, V, L, A> {
        KeptPlaceholder {
            ticket: kept.ticket,
            placeholder: again(&kept.placeholder, kept.ticket),
        }
    }
}

/// Makes shared placeholders in an allocator.
#[derive(Drop)]
pub struct Maker<A: Allocator = Global> {
    alloc: A,
}

impl<A: Allocator> Maker<A> {
    pub fn new(alloc: A) -> Self
        ensures { result.alloc ≡ alloc }
    {
        Maker { alloc }
    }
}

impl<
    K: Eq + Hash + Drop,
    V: Drop,
    L: Lifecycle<K, V>,
    A: Allocator + Clone,
> placeholder::MakesPlaceholders<K, SharedPlaceholder<K, V, L, A>> for Maker<A> {
    // Its placeholder is an allocation.
    ghost is_infallible = { λ _. ⊥ };

    fn make<Q: ToKey<K>>(
        &self,
        hash: u64,
        idx: Token,
        ticket: u64,
        query: &Q,
    ) -> Result<SharedPlaceholder<K, V, L, A>, Refusal> {
        let key = query.to_key()?;
        let core: Result<_, _> = self.alloc.clone();
        let tasks: Result<_, _> = self.alloc.clone();
        let own: Result<_, _> = self.alloc.clone();
        let (Ok(core), Ok(tasks), Ok(own)) = (core, tasks, own) else {
            return Err(Refusal::Memory);
        };
        let state = State::new(core, tasks, ticket, key);
        match Arc::new(own, Placeholder::new(hash, idx, state)) {
            Ok(shared) => Ok(SharedPlaceholder {
                hash,
                idx,
                ticket,
                placeholder: Some(shared),
            }),
            Err(_) => Err(Refusal::Memory),
        }
    }
}
