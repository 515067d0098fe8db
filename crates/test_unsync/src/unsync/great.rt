//! Great numbers, weights of an item and reads of one, and weights that change with a text.
use crate::asked::{Ask, Said, answers, inserts};
use quick_cache_listeners::ByLength;
use quick_cache_unsync::{Cache, Weighter};
use test_tools::expect_ok;

/// Weighs a number as itself.
#[derive(Drop)]
pub(crate) struct AsItself;

impl Weighter<u64, u64> for AsItself {
    ghost weight_of = { λ _ _ value. value };

    fn weight(&self, _key: &u64, value: &u64) -> u64 {
        *value
    }
}

#[test]
fn seventy_thousand_gets_are_as_many_reads(rt: HostRuntime) {
    let mut cache: Cache<u64, u64> = expect_ok!(rt; Cache::new(rt.alloc(), 10));
    inserts(&rt, &mut cache, 1..2);
    for _ in 0..70000 {
        cache.get(&1);
    }
    let row = &[(Ask::Reads(1), Said::Count(70000))];
    answers(&rt, &mut cache, row);
    let mut copy = expect_ok!(rt; cache.try_clone());
    answers(&rt, &mut copy, row);
}

#[test]
fn great_weights_are_kept_whole(rt: HostRuntime) {
    let mut cache = expect_ok!(rt; Cache::with_weighter(rt.alloc(), 100, 1000000000000, AsItself));
    inserts(&rt, &mut cache, 1..2);
    for (weight, beside_one, twice) in [
        (65534, 65535, 131068),
        (65535, 65536, 131070),
        (65536, 65537, 131072),
        (4294967296, 4294967297, 8589934592),
    ] {
        let row = &[
            (Ask::Insert(2, weight), Said::Done),
            (Ask::Weight, Said::Count(beside_one)),
            (Ask::Set(1, weight), Said::Is(true)),
            (Ask::Weight, Said::Count(twice)),
            (Ask::Insert(1, 1), Said::Done),
            (Ask::Remove(2), Said::Pair(2, weight)),
            (Ask::Weight, Said::Count(1)),
        ];
        answers(&rt, &mut cache, row);
    }
}

#[test]
fn an_item_of_weight_0_outlives_a_hundred_that_weigh_more(rt: HostRuntime) {
    let mut cache = expect_ok!(rt; Cache::with_weighter(rt.alloc(), 100, 100, AsItself));
    let row = &[
        (Ask::Insert(0, 0), Said::Done),
        (Ask::Weight, Said::Count(0)),
    ];
    answers(&rt, &mut cache, row);
    for number in 1..100 {
        let row = &[
            (Ask::Insert(number, number), Said::Done),
            (Ask::Insert(number, number), Said::Done),
        ];
        answers(&rt, &mut cache, row);
    }
    answers(&rt, &mut cache, &[(Ask::Get(0), Said::Value(0))]);
}

#[test]
fn a_text_that_grows_and_goes_is_weighed_each_time(rt: HostRuntime) {
    let mut cache = expect_ok!(rt; Cache::with_weighter(rt.alloc(), 100, 100000, ByLength));
    let row = &[
        (Ask::Insert(1, "1"), Said::Done),
        (Ask::Weight, Said::Count(1)),
        (Ask::Set(1, "11"), Said::Is(true)),
        (Ask::Weight, Said::Count(2)),
        (Ask::Set(1, ""), Said::Is(true)),
        (Ask::Weight, Said::Count(0)),
        (Ask::Get(1), Said::Value("")),
        (Ask::Counts, Said::Counts([1, 0, 100000, 3, 0])),
    ];
    answers(&rt, &mut cache, row);
}
