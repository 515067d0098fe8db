//! What values weigh by the weighers that are ready made.
use crate::asked::{Ask, Said, answers};
use quick_cache_listeners::{ByBytes, ByContent, HasBytes, HasLength, Held, WithBytes};
use quick_cache_model::Weighter;
use quick_cache_unsync::Cache;
use std::rc::Rc;
use std::sync::Arc;
use test_tools::{expect_eq, expect_ok};

#[test]
fn what_has_a_fixed_size_weighs_it(rt: HostRuntime) {
    let unsigned = [
        1u8.byte_count(),
        2u16.byte_count(),
        3u32.byte_count(),
        4u64.byte_count(),
        5u128.byte_count(),
        6usize.byte_count(),
    ];
    let signed = [
        1i8.byte_count(),
        2i16.byte_count(),
        3i32.byte_count(),
        4i64.byte_count(),
        5i128.byte_count(),
        6isize.byte_count(),
    ];
    expect_eq!(rt; (unsigned, signed), ([1, 2, 4, 8, 16, 8], [1, 2, 4, 8, 16, 8]));
    let others = [
        1.5f32.byte_count(),
        2.5f64.byte_count(),
        true.byte_count(),
        'x'.byte_count(),
        ().byte_count(),
    ];
    expect_eq!(rt; others, [4, 8, 1, 4, 0]);
}

#[test]
fn what_holds_others_weighs_their_sum(rt: HostRuntime) {
    let text = expect_ok!(rt; String::from_str(rt.alloc(), "hübsch"));
    let bytes = expect_ok!(rt; vec![in rt.alloc(); 1u8, 2, 3]);
    let numbers = expect_ok!(rt; vec![in rt.alloc(); 1u32, 2, 3]);
    let texts = expect_ok!(rt; vec![in rt.alloc(); Some("one"), None, Some("three")]);
    let sizes = [
        (&"four").byte_count(),
        text.byte_count(),
        bytes.byte_count(),
        numbers.byte_count(),
        texts.byte_count(),
        [1u16, 2].byte_count(),
        (7u8, "two").byte_count(),
        (7u8, "two", Some('x')).byte_count(),
    ];
    expect_eq!(rt; sizes, [4, 7, 3, 12, 8, 4, 4, 8]);
}

#[test]
fn a_handle_weighs_what_it_holds(rt: HostRuntime) {
    let boxed = expect_ok!(rt; Box::new(rt.alloc(), 7u32));
    let alone = expect_ok!(rt; Rc::new(rt.alloc(), "four"));
    let shared = expect_ok!(rt; Arc::new(rt.alloc(), WithBytes::new("four", 100)));
    let sizes = [
        boxed.byte_count(),
        alone.byte_count(),
        shared.byte_count(),
        alone.length(),
    ];
    expect_eq!(rt; sizes, [4, 4, 100, 4]);
    let measured = WithBytes::measured(alone, |text: &Rc<&str>| text.length().wrapping_add(3));
    expect_eq!(rt; (measured.byte_count(), measured.is_held()), (7, false));
    let other = expect_ok!(rt; shared.clone());
    let nested = WithBytes::new(other, 3);
    expect_eq!(rt; (nested.is_held(), nested.byte_count()), (true, 3));
}

#[test]
fn an_entry_weighs_its_key_too_and_its_overhead(rt: HostRuntime) {
    let by = ByBytes::with_overhead(80);
    let huge = WithBytes::new((), u64::MAX);
    let weights = [
        by.weight(&1u64, &"four"),
        by.weight(&"key", &Some(1u32)),
        ByBytes::default().weight(&"", &""),
        // What is beyond the greatest number stays there.
        by.weight(&1u64, &huge),
        by.weight(&1u64, &(WithBytes::new((), u64::MAX), "four")),
    ];
    expect_eq!(rt; weights, [92, 87, 0, u64::MAX, u64::MAX]);
}

#[test]
fn an_entry_weighs_what_its_hash_writes(rt: HostRuntime) {
    let by = ByContent::with_overhead(80);
    let list = expect_ok!(rt; vec![in rt.alloc(); 1u16, 2, 3]);
    let weights = [
        by.weight(&1u64, &"four"),
        by.weight(&1u8, &list),
        by.weight(&(), &(true, 'x')),
    ];
    expect_eq!(rt; weights, [93, 95, 85]);
}

#[test]
fn a_cache_counts_bytes(rt: HostRuntime) {
    let by = ByBytes::with_overhead(80);
    let mut cache = expect_ok!(rt; Cache::with_weighter(rt.alloc(), 10, 300, by));
    for (key, text, weight, len) in [
        (1u64, "four", 92, 1),
        (2, "five!", 185, 2),
        (3, "six", 276, 3),
        (4, "seven", 277, 3),
        (1, "a hundred", 281, 3),
    ] {
        let row = &[
            (Ask::Put(key, text), Said::Done),
            (Ask::Counts, Said::Counts([len, weight, 300, 0, 0])),
        ];
        answers(&rt, &mut cache, row);
    }
}
