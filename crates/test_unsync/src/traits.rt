//! The traits of the cache: queries that stand for keys, the weigher, the hash builder.
use crate::copying::halves::{Halves, Shape};
use quick_cache_base::{
    Bytes, BytesIn, DefaultHashBuilder, Equivalent, Refusal, Text, TextIn, ToKey, UnitWeighter,
    Weighter, hash_of,
};
use quick_cache_unsync::Cache;
use std::alloc::Global;
use test_tools::{expect, expect_eq, expect_ok};

#[test]
fn borrowed_halves_stand_for_a_pair(rt: HostRuntime) {
    let square = Shape {
        name: expect_ok!(rt; String::from_str(rt.alloc(), "square")),
        year: 2022,
    };
    let halves = Halves {
        name: "square",
        year: 2022,
    };
    let builder = DefaultHashBuilder::new();
    expect!(rt; halves.equivalent(&square));
    expect_eq!(rt; hash_of(&builder, &halves), hash_of(&builder, &square));
    expect!(rt;
        !Halves {
            name: "square",
            year: 2023
        }
        .equivalent(&square)
    );
}

/// What a loader gives.
fn thirty() -> Result<u64, Refusal> {
    Ok(30)
}

/// What is loaded under a text.
fn load_text(alloc: Global, ages: &mut Cache<String, u64>, name: &str) -> Option<u64> {
    match ages.get_or_insert_with(&TextIn::new(alloc, name), thirty) {
        Ok(age) => Some(*age),
        Err(_) => None,
    }
}

#[test]
fn a_borrowed_text_finds_and_loads_the_text_of_its_bytes(rt: HostRuntime) {
    let alloc = rt.alloc();
    let mut ages: Cache<String, u64> = expect_ok!(rt; Cache::new(alloc, 5));
    expect_eq!(rt; load_text(alloc, &mut ages, "anna"), Some(30));
    for (name, age) in [("anna", Some(30)), ("ann", None)] {
        expect_eq!(rt; ages.get(&Text(name)).copied(), age);
    }
    let gone = ages.remove(&Text("anna"));
    expect_eq!(rt; gone.map(|(_, age)| age), Some(30));
}

/// What is loaded under bytes.
fn load_bytes(alloc: Global, sizes: &mut Cache<Vec<u8>, u64>, bytes: &[u8]) -> Option<u64> {
    match sizes.get_or_insert_with(&BytesIn::new(alloc, bytes), thirty) {
        Ok(size) => Some(*size),
        Err(_) => None,
    }
}

#[test]
fn borrowed_bytes_find_and_load_the_list_of_them(rt: HostRuntime) {
    let alloc = rt.alloc();
    let mut sizes: Cache<Vec<u8>, u64> = expect_ok!(rt; Cache::new(alloc, 5));
    expect_eq!(rt; load_bytes(alloc, &mut sizes, &[1, 2]), Some(30));
    for (bytes, size) in [([1, 2], Some(30)), ([2, 1], None)] {
        expect_eq!(rt; sizes.get(&Bytes(&bytes)).copied(), size);
    }
}

#[test]
fn two_pairs_of_one_name_are_two_keys(rt: HostRuntime) {
    let alloc = rt.alloc();
    let mut cache: Cache<Shape, &str> = expect_ok!(rt; Cache::new(alloc, 5));
    for (year, colour) in [(2022, "blue"), (2023, "black")] {
        let name = expect_ok!(rt; String::from_str(alloc, "square"));
        expect!(rt; cache.insert(Shape { name, year }, colour).is_ok());
    }
    let rows = [
        ("square", 2022, Some("blue")),
        ("square", 2023, Some("black")),
        ("square", 2024, None),
        ("circle", 2022, None),
    ];
    for (name, year, colour) in rows {
        let found = cache.get(&Halves { name, year }).copied();
        expect_eq!(rt; (name, year, found), (name, year, colour));
    }
}

#[test]
fn a_key_stands_for_its_equals_and_gives_its_clone(rt: HostRuntime) {
    let key: u64 = 7;
    expect!(rt; Equivalent::<u64>::equivalent(&key, &7));
    expect!(rt; !Equivalent::<u64>::equivalent(&key, &8));
    expect!(rt; key.to_key() == Ok(7));
}

#[test]
fn defaults_are_told_plainly(rt: HostRuntime) {
    let weigher = UnitWeighter;
    expect_eq!(rt; weigher.weight(&1u64, &"any"), 1);
    let builder: DefaultHashBuilder = Default::default();
    let text = expect_ok!(rt; format!(in rt.alloc(); "{builder:?}"));
    expect_eq!(rt; text.as_str(), "DefaultHashBuilder { .. }");
}

#[test]
fn refusals_are_numbered_from_one(rt: HostRuntime) {
    let refusals = [
        Refusal::Memory,
        Refusal::SlotsFull,
        Refusal::TicketsSpent,
        Refusal::Finished,
    ];
    for (at, refusal) in refusals.into_iter().enumerate() {
        expect_eq!(rt; refusal as usize, at.saturating_add(1));
    }
}
