//! A cache is saved in a file, a line for each item, and stands again as it did.
use quick_cache_unsync::{
    Cache, DefaultHashBuilder, DefaultLifecycle, OptionsBuilder, Queue, UnitWeighter,
};
use std::alloc::Global;
use std::io::{self, Write};

/// Why a text makes no cache: a line is none of ours, or there is no memory.
#[derive(Debug, PartialEq, Drop)]
pub struct NotRestored;

/// Writes a line for each item: its ring's name, key, value and mark.
pub fn save<W: Write>(cache: &Cache<u64, u64>, out: &mut W) -> io::Result<()> {
    for (key, value, queue, mark) in cache.saved() {
        let name = match queue {
            Queue::Hot => "hot",
            Queue::Cold => "cold",
        };
        writeln!(out, "{name} {key} {value} {mark}")?;
    }
    Ok(())
}

/// What a line says.
fn read(line: &str) -> Option<(u64, u64, Queue, u8)> {
    let mut words = line.split(' ');
    let queue = match words.next() {
        Some("hot") => Queue::Hot,
        Some("cold") => Queue::Cold,
        _ => return None,
    };
    let key = words.next()?.parse().ok()?;
    let value = words.next()?.parse().ok()?;
    let mark = words.next()?.parse().ok()?;
    Some((key, value, queue, mark))
}

/// Makes the cache for so many items anew of what `save` wrote.
pub fn restored(alloc: Global, items: usize, text: &str) -> Result<Cache<u64, u64>, NotRestored> {
    let mut pairs = Vec::new(alloc);
    for line in text.lines() {
        let pair = read(line).ok_or(NotRestored)?;
        pairs.push(pair).map_err(|_| NotRestored)?;
    }
    let mut options = OptionsBuilder::new();
    options.estimated_items_capacity(items);
    options.weight_capacity(items as u64);
    let options = options.build().map_err(|_| NotRestored)?;
    let (builder, lifecycle) = (DefaultHashBuilder::new(), DefaultLifecycle::new());
    Cache::restored(
        alloc,
        options,
        UnitWeighter,
        builder,
        lifecycle,
        pairs.into_iter(),
    )
    .map_err(|_| NotRestored)
}

#[cfg(test)]
mod tests {
    use super::*;
    use std::fs;
    use std::fs::File;
    use std::process::Abort;
    use test_tools::{expect, expect_eq, expect_ok};

    /// Four keys come into a cache for three, and the second one is looked up.
    fn used(rt: &impl Abort, alloc: Global) -> Cache<u64, u64> {
        let mut cache = expect_ok!(rt; Cache::new(alloc, 3));
        for key in [1, 2, 3, 4] {
            expect_eq!(rt; cache.put(key, key * 10), Ok(()));
            cache.get(&2);
        }
        cache
    }

    #[test]
    fn a_cache_stands_as_it_did(rt: HostRuntime) {
        let cache = used(&rt, rt.alloc());
        expect_ok!(rt; save(&cache, &mut expect_ok!(rt; File::create(&rt, "saved_cache.txt"))));
        let text = expect_ok!(rt; fs::read_to_string(&rt, "saved_cache.txt"));
        expect_ok!(rt; fs::remove_file(&rt, "saved_cache.txt"));
        expect_eq!(rt; text.as_str(), "hot 1 10 0\nhot 2 20 2\ncold 4 40 0\n");
        let again = expect_ok!(rt; restored(rt.alloc(), 3, text.as_str()));
        let mut copy = Vec::new(rt.alloc());
        expect_ok!(rt; save(&again, &mut copy));
        expect_eq!(rt; copy.as_slice(), text.as_bytes());
        expect!(rt; restored(rt.alloc(), 3, "warm 5 5 0").is_err());
    }
}
