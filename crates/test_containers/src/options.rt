//! The options: each default, each error, and each boundary of the sizes.
use quick_cache_base::options::{
    DEFAULT_GHOST_ALLOCATION, DEFAULT_HOT_ALLOCATION, DEFAULT_MARK_CUT, Error, Options,
};
use quick_cache_base::sizes::{
    ghost_limit, hot_target, rescaled_limit, rescaled_target, shard_sizes,
};
use quick_cache_base::{ItemStats, MemoryUsed, OptionsBuilder};
use std::alloc::{AllocError, Global};
use test_tools::{expect, expect_eq, expect_ok};

const MOST: u64 = 18446744073709551615;

/// In a row, a number that is not set.
const UNSET: u64 = 12345;

/// And a share that is not set.
const NO_SHARE: u32 = 12345;

/// Options of these numbers.
fn build(
    shards: u64,
    items: u64,
    weight: u64,
    hot_share: u32,
    ghost_share: u32,
) -> Result<Options, Error> {
    let mut builder = OptionsBuilder::new();
    if shards != UNSET {
        builder.shards(shards as usize);
    }
    if items != UNSET {
        builder.estimated_items_capacity(items as usize);
    }
    if weight != UNSET {
        builder.weight_capacity(weight);
    }
    if hot_share != NO_SHARE {
        builder.hot_allocation(hot_share);
    }
    if ghost_share != NO_SHARE {
        builder.ghost_allocation(ghost_share);
    }
    builder.build()
}

/// The shards, items, weight, hot share and ghost share.
fn told(options: &Options) -> (usize, usize, u64, u32, u32) {
    (
        options.shards(),
        options.estimated_items_capacity(),
        options.weight_capacity(),
        options.hot_allocation(),
        options.ghost_allocation(),
    )
}

#[test]
fn a_number_is_the_one_set_last_or_its_default(rt: HostRuntime) {
    let mut builder = OptionsBuilder::default();
    builder.estimated_items_capacity(1).weight_capacity(2);
    builder.estimated_items_capacity(7).weight_capacity(9);
    let options = expect_ok!(rt; expect_ok!(rt; builder.clone()).build());
    expect_eq!(rt; (DEFAULT_HOT_ALLOCATION, DEFAULT_GHOST_ALLOCATION), (970000, 500000));
    expect_eq!(rt; told(&options), (16, 7, 9, 970000, 500000));
    let options = expect_ok!(rt; builder
        .shards(3)
        .hot_allocation(0)
        .ghost_allocation(1000000)
        .build());
    expect_eq!(rt; told(&options), (3, 7, 9, 0, 1000000));
}

const HOT: &str = "hot_allocation is out of range";

const COLD: &str = "ghost_allocation is out of range";

const SHARDS: &str = "shards is out of range";

const WEIGHT: &str = "weight_capacity is not set";

const ITEMS: &str = "estimated_items_capacity is not set";

/// The shards, items, weight, hot share and ghost share, and the text.
type Row = (u64, u64, u64, u32, u32, &'static str);

const ROWS: [Row; 12] = [
    (9223372036854775809, UNSET, UNSET, 1000001, 1000001, HOT),
    (1, 1, 1, 4294967295, 0, HOT),
    (9223372036854775809, UNSET, UNSET, 1000000, 1000001, COLD),
    (UNSET, 1, 1, NO_SHARE, 4294967295, COLD),
    (9223372036854775809, UNSET, UNSET, 1000000, 1000000, SHARDS),
    (9223372036854775809, 100, 100, NO_SHARE, NO_SHARE, SHARDS),
    (18446744073709551615, 1, 1, NO_SHARE, NO_SHARE, SHARDS),
    // The sum that rounds up saturates, so twice as many shards would have 31 items each.
    (9223372036854775808, UNSET, UNSET, 0, 0, WEIGHT),
    (UNSET, 1, UNSET, NO_SHARE, NO_SHARE, WEIGHT),
    (9223372036854775808, UNSET, 0, NO_SHARE, NO_SHARE, ITEMS),
    // The sum that rounds up saturates, so twice as many shards would have 31 items each.
    (9223372036854775808, 0, 0, 1000000, 1000000, "none"),
    (UNSET, 100, 100, NO_SHARE, NO_SHARE, "none"),
];

/// What a builder tells, as a text.
fn text_of(alloc: Global, built: Result<Options, Error>) -> Result<String, AllocError> {
    match built {
        Ok(_) => format!(in alloc; "none"),
        Err(error) => format!(in alloc; "{error}"),
    }
}

#[test]
fn the_first_error_is_told(rt: HostRuntime) {
    for (i, (shards, items, weight, hot_share, ghost_share, want)) in ROWS.into_iter().enumerate() {
        let built = build(shards, items, weight, hot_share, ghost_share);
        let text = expect_ok!(rt; text_of(rt.alloc(), built));
        expect_eq!(rt; (i, text.as_str()), (i, want));
    }
}

#[test]
fn the_greatest_mark_is_tested_last(rt: HostRuntime) {
    let mark = "mark_cut is out of range";
    // The greatest mark, and the text where nothing else is wrong.
    for (cut, want) in [(0, mark), (1, "none"), (3, "none"), (4, mark), (255, mark)] {
        let mut builder = OptionsBuilder::new();
        let built = builder.mark_cut(cut).weight_capacity(1).build();
        let unset = expect_ok!(rt; text_of(rt.alloc(), built));
        let built = builder.estimated_items_capacity(1).build();
        let is_set = built
            .as_ref()
            .is_ok_and(|options| options.mark_cut() == cut);
        expect_eq!(rt; (cut, is_set), (cut, want == "none"));
        let text = expect_ok!(rt; text_of(rt.alloc(), built));
        expect_eq!(rt;
            (cut, unset.as_str(), text.as_str()),
            (cut, "estimated_items_capacity is not set", want)
        );
    }
    expect_eq!(rt; DEFAULT_MARK_CUT, 2);
}

#[test]
fn a_cache_is_divided_into_shards_of_32_items(rt: HostRuntime) {
    // The shards, items and weight, and then the shards and the items and weight of each.
    let rows = [
        (0, 1000, 10, (1, 1000, 10)),
        (1, 1000, 10, (1, 1000, 10)),
        (2, 1000, 10, (2, 500, 5)),
        (3, 1000, 10, (4, 250, 3)),
        (16, 512, 1, (16, 32, 1)),
        (16, 497, 1, (16, 32, 1)),
        (16, 496, 8, (8, 62, 1)),
        (17, 1024, 33, (32, 32, 2)),
        (UNSET, 0, 0, (1, 0, 0)),
        (UNSET, 62, 7, (1, 62, 7)),
        (UNSET, 63, 7, (2, 32, 4)),
        (UNSET, 100, 100, (2, 50, 50)),
        (
            UNSET,
            18446744073709551615,
            MOST,
            (16, 1152921504606846975, 1152921504606846975),
        ),
        // The sum that rounds up saturates, so twice as many shards would have 31 items each.
        (
            9223372036854775808,
            18446744073709551615,
            0,
            (288230376151711744, 63, 0),
        ),
    ];
    for (shards, items, weight, want) in rows {
        let sizes = shard_sizes(&expect_ok!(rt; build(shards, items, weight, NO_SHARE, NO_SHARE)));
        let found = (sizes.shards, sizes.items, sizes.weight);
        expect_eq!(rt; (items, weight, found), (items, weight, want));
    }
}

#[test]
fn a_target_is_a_clamped_share(rt: HostRuntime) {
    // The capacity and the share, and the hot target.
    let rows = [
        (0, 970000, 0),
        (1, 0, 1),
        (1, 970000, 1),
        (2, 970000, 1),
        (100, 970000, 97),
        (100, 0, 1),
        (100, 1000000, 100),
        (100, 4294967295, 100),
        (33, 999999, 32),
        (MOST, 1000000, MOST),
        (MOST, 500000, 9223372036854775807),
    ];
    for (capacity, share, want) in rows {
        expect_eq!(rt;
            (capacity, share, hot_target(capacity, share)),
            (capacity, share, want)
        );
    }
}

#[test]
fn a_limit_is_a_share(rt: HostRuntime) {
    // The items and the share, and the ghost limit.
    let rows = [
        (0, 500000, 0),
        (1, 500000, 0),
        (3, 500000, 1),
        (100, 0, 0),
        (100, 999999, 99),
        (100, 1000000, 100),
        (18446744073709551615, 500000, 9223372036854775807),
        (18446744073709551615, 1000000, 18446744073709551615),
        (18446744073709551615, 4294967295, 18446744073709551615),
    ];
    for (items, share, want) in rows {
        expect_eq!(rt; (items, share, ghost_limit(items, share)), (items, share, want));
    }
}

#[test]
fn a_new_capacity_rescales_both(rt: HostRuntime) {
    // The old and the new capacity, target and limit before, target and limit after.
    let rows = [
        (100, 50, 97, 50, 48, 25),
        (100, 100, 97, 50, 97, 50),
        (100, 0, 97, 50, 0, 0),
        (100, 1, 97, 50, 1, 0),
        (0, 100, 0, 50, 97, 50),
        (0, 0, 0, 50, 0, 50),
        (1, MOST, 1, 3, MOST, 18446744073709551615),
        (MOST, 1, MOST, 18446744073709551615, 1, 1),
        (3, 2, 2, 2, 1, 1),
    ];
    for (old, new, target, limit, want_target, want_limit) in rows {
        let found = (
            rescaled_target(old, new, target),
            rescaled_limit(old, new, limit),
        );
        expect_eq!(rt; (old, new, found), (old, new, (want_target, want_limit)));
    }
}

#[test]
fn memory_adds_up_and_saturates(rt: HostRuntime) {
    for (entries, map, want) in [
        (0, 0, 0),
        (3, 4, 7),
        (18446744073709551615, 0, 18446744073709551615),
        (18446744073709551615, 1, 18446744073709551615),
    ] {
        let total = MemoryUsed { entries, map }.total();
        expect_eq!(rt; (entries, map, total), (entries, map, want));
    }
    expect!(rt; ItemStats { access_count: 2 } == ItemStats { access_count: 2 });
}
