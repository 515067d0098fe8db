//! Keys that are equal regardless of case, and a query that stands for one case alone.
ghost use Rattle.std.specs.Prelude.{◌&&◌, ◌==◌, not};
ghost use Rattle.std.specs.Cmp.Rules.{comparing, hashing};
ghost use Rattle.std.proofs.Common.{rules};

use crate::of_a_shard::rows::{Tested, empty};
use quick_cache_base::Equivalent;
use quick_cache_shard::InsertStrategy;
use std::hash::Hash;
use test_parts::counting::Told;
use test_tools::{expect, expect_eq, expect_ok};

/// A letter. Its case is kept, and is no part of what is compared.
#[derive_where(PartialEq, Eq, Hash)]
#[derive(Drop)]
struct Letter {
    number: u64,
    #[derive_where(skip(EqHashOrd))]
    capital: bool,
}

/// Stands for a letter in lower case, and for none in upper case.
#[derive(PartialEq, Eq, Hash, Drop)]
struct Small {
    number: u64,
}

impl Equivalent<Letter> for Small {
    ghost equivalent = { λ query key. (query.number == key.number) && not key.capital };

    ghost same_hash = { Prim.search (hashing, rules) };

    ghost same_key = { Prim.search (comparing, rules) };

    fn equivalent(&self, key: &Letter) -> bool {
        self.number == key.number && !key.capital
    }
}

/// Inserts a letter, and tells what is then found in lower case.
fn put(shard: &mut Tested<Letter, u64>, letter: Letter, value: u64) -> (bool, Option<u64>) {
    let query = Small { number: 3 };
    let hash = shard.hash(&letter);
    let is_put = shard
        .insert(
            &mut Told::default(),
            hash,
            letter,
            value,
            InsertStrategy::Insert,
        )
        .is_ok();
    let hash = shard.hash(&query);
    (is_put, shard.get(hash, &query).copied())
}

#[test]
fn a_query_may_stand_for_one_of_two_equal_keys(rt: HostRuntime) {
    let mut shard: Tested<Letter, u64> = expect_ok!(rt; empty(rt.alloc(), 4));
    let [small, capital] = [false, true].map(|capital| Letter { number: 3, capital });
    let query = Small { number: 3 };
    let stands = [query.equivalent(&small), query.equivalent(&capital)];
    expect_eq!(rt; (small == capital, stands), (true, [true, false]));
    let hash = shard.hash(&query);
    expect_eq!(rt; hash, shard.hash(&small));
    expect_eq!(rt; put(&mut shard, small, 12), (true, Some(12)));
    expect!(rt; shard.remove(hash, &query).is_some());
    // Under an equal key of the other case it finds nothing.
    expect_eq!(rt; put(&mut shard, capital, 13), (true, None));
}
