//! A placeholder that is three numbers, and a count of touches that nobody adds to, as they stand in
//! a cache that has one thread.
ghost use Rattle.std.specs.Prelude.{◌≡◌, ⊤, refl, IfOk, IsOk};
ghost use Rattle.std.specs.Int.NonZero.{non_zero_u32_get};

use quick_cache_model::{MakesPlaceholders, Refusal, SharedPlaceholder, ToKey, Token, Touches};
use std::hash::Hash;
use std::marker::PhantomData;

/// Counts nothing: no reader stands beside the one thread.
#[derive(Default, Drop)]
pub struct NoTouches;

impl Touches for NoTouches {
    ghost may_count = { λ count. count ≡ 0 };

    ghost none_counted = { refl };

    fn counts() -> bool {
        false
    }

    fn add(&self) {}

    fn add_all(&self, _count: u64) {}

    fn seen(&self) -> u64 {
        0
    }

    fn take(&mut self) -> u64 {
        0
    }
}

/// The placeholder of a key, in a cache whose items count touches so.
#[derive(Drop)]
pub struct Placeholder<T = NoTouches> {
    pub hash: u64,
    pub idx: Token,
    pub ticket: u64,
    pub touch: PhantomData<T>,
}

impl<T> Placeholder<T> {
    /// The placeholder of the ticket. Only the ticket tells placeholders apart; a slot that is
    /// wrong costs time.
    pub fn of_parts(hash: u64, slot: u32, ticket: u64) -> Self
        ensures { result.ticket ≡ ticket }
    {
        Placeholder {
            hash,
            idx: Token::new(slot).unwrap_or(Token::MIN),
            ticket,
            touch: PhantomData,
        }
    }
}

/// The ticket of a placeholder: all that its slot keeps of it.
#[derive(Drop)]
pub struct Ticket {
    number: u64,
}

impl<K: Eq + Hash, T: Touches> SharedPlaceholder<K> for Placeholder<T> {
    type Touch = T;

    type Kept = Ticket;

    ghost hash_of = { λ placeholder. placeholder.hash };

    ghost idx_of = { λ placeholder. non_zero_u32_get placeholder.idx };

    ghost own_ticket = { λ placeholder. placeholder.ticket };

    ghost ticket_of = { λ kept. kept.number };

    fn same_as(&self, other: &Self) -> bool {
        self.ticket == other.ticket
    }

    fn hash(&self) -> u64 {
        self.hash
    }

    fn idx(&self) -> Token {
        self.idx
    }

    fn share(&self) -> Self {
        Placeholder {
            hash: self.hash,
            idx: self.idx,
            ticket: self.ticket,
            touch: PhantomData,
        }
    }

    fn keep(&self) -> Ticket {
        Ticket {
            number: self.ticket,
        }
    }

    fn keeps(&self, kept: &Ticket) -> bool {
        self.ticket == kept.number
    }

    fn met(kept: &Ticket, hash: u64, idx: Token) -> Self {
        Placeholder {
            hash,
            idx,
            ticket: kept.number,
            touch: PhantomData,
        }
    }

    fn keep_again(kept: &Ticket) -> Ticket {
        Ticket {
            number: kept.number,
        }
    }
}

/// Makes placeholders of three numbers, which takes no memory.
pub struct Plainly;

impl<K: Eq + Hash, T: Touches> MakesPlaceholders<K, Placeholder<T>> for Plainly {
    ghost is_infallible = { λ _. ⊤ };

    fn make<Q: ToKey<K>>(
        &self,
        hash: u64,
        idx: Token,
        ticket: u64,
        _query: &Q,
    ) -> Result<Placeholder<T>, Refusal>
        // It holds no key, so it takes no memory.
        ensures succeeds { IsOk result }
        ensures hash { IfOk result (λ made. made.hash ≡ hash) }
        ensures idx { IfOk result (λ made. made.idx ≡ idx) }
        ensures ticket { IfOk result (λ made. made.ticket ≡ ticket) }
    {
        Ok(Placeholder {
            hash,
            idx,
            ticket,
            touch: PhantomData,
        })
    }
}
