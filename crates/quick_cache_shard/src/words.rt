//! What contracts call the type of a shard, its hash, and what it goes by.
ghost use Rattle.std.specs.Prelude.{ℕ, List};
ghost use Rattle.std.specs.Borrow.{RattleType};
ghost use Rattle.quick_cache_shard.specs.Goes.{Goes};

/// What a contract calls the type of a value that is lent: the logic's description of it.
pub trait Typed {
    ghost lender_row: { RattleType };
}

/// What a contract calls the hash that a builder makes of a key or a query.
pub trait Keyed {
    type Builder;

    ghost hash: { Self.Builder → List (List ℕ) → ℕ };
}

/// What a contract calls the rules and the hooks that a cache goes by.
pub trait Ruled {
    type Key;

    type Value;

    type Weigher;

    type Builder;

    type Life;

    type RequestState;

    ghost goes: { Goes Self.Key Self.Value Self.Weigher Self.Builder Self.Life Self.RequestState };
}
