//! The guide's table of the caches whose entries end, a line a row: what each of the three answers to
//! the same request.
use crate::loader::hundreds::{all_hundreds, hundreds};
use quick_cache_expiring::Expiring;
use quick_cache_expiring_sync::SharedExpiring;
use read_through::ReadThrough;
use std::alloc::Global;
use std::convert::Infallible;
use std::sync::Wait;
use std::time::Clock;
use test_tools::{expect_eq, expect_ok};

/// What is asked of a cache where 100 stands under the key 1 since the moment 0, for ten moments.
#[derive(Clone, Copy, Debug, PartialEq)]
enum Ask {
    Store,
    LookUp,
    Peek,
    End,
    Load,
    Many,
    Renew,
    Remove,
    Clear,
    Purge,
    Resize,
    Count,
    Walk,
}

/// A request at a moment, and what is told by the cache for one thread, the one for threads and the
/// loader, which gives a hundred times the key and the moment. Nothing, where there is no such call or
/// nothing serves.
const CELLS: [(Ask, u64, [Option<u64>; 3]); 18] = [
    // The value that is stored in its place.
    (Ask::Store, 9, [Some(7), Some(7), Some(7)]),
    (Ask::LookUp, 9, [Some(100), Some(100), Some(100)]),
    (Ask::LookUp, 10, [None, None, Some(110)]),
    (Ask::Peek, 9, [Some(100), Some(100), Some(100)]),
    (Ask::Peek, 10, [None, None, None]),
    // The moment at which it is over.
    (Ask::End, 10, [Some(10), Some(10), None]),
    (Ask::Load, 9, [Some(100), Some(100), Some(100)]),
    (Ask::Load, 10, [Some(110), Some(110), Some(110)]),
    (Ask::Many, 9, [None, Some(100), Some(100)]),
    // The new end of what serves.
    (Ask::Renew, 9, [Some(19), Some(19), None]),
    (Ask::Renew, 10, [None, None, None]),
    (Ask::Remove, 10, [Some(100), Some(100), Some(100)]),
    // How many entries are left.
    (Ask::Clear, 9, [Some(0), Some(0), Some(0)]),
    (Ask::Resize, 9, [Some(0), Some(0), Some(0)]),
    // How many are taken out.
    (Ask::Purge, 9, [Some(0), Some(0), None]),
    (Ask::Purge, 10, [Some(1), Some(1), None]),
    (Ask::Count, 10, [Some(8), Some(8), Some(8)]),
    (Ask::Walk, 10, [Some(100), Some(100), Some(100)]),
];

fn ask_alone(entries: &mut Expiring<u64, u64>, ask: Ask, now: u64) -> Option<u64> {
    match ask {
        Ask::Store => {
            let _ = entries.put(1, 7, now, 10);
            entries.peek(&1, now).copied()
        }
        Ask::LookUp => entries.get(&1, now).copied(),
        Ask::Peek => entries.peek(&1, now).copied(),
        Ask::End => entries.expires_at(&1),
        Ask::Load => {
            let loader = || Ok::<u64, Infallible>(hundreds(1, now));
            entries.get_or_load(&1, now, 10, loader).ok()
        }
        Ask::Many => None,
        Ask::Renew => {
            if entries.touch(&1, now, 10) {
                entries.expires_at(&1)
            } else {
                None
            }
        }
        Ask::Remove => entries.remove(&1).map(|pair| pair.1.value),
        Ask::Clear => {
            entries.clear();
            Some(entries.len() as u64)
        }
        Ask::Resize => {
            entries.set_capacity(0);
            Some(entries.len() as u64)
        }
        Ask::Purge => Some(entries.purge(now) as u64),
        Ask::Count => Some(entries.stats().capacity),
        Ask::Walk => entries.cache().iter().next().map(|pair| pair.1.value),
    }
}

fn ask_shared<R: Wait + Clock>(
    rt: &R,
    alloc: Global,
    entries: &SharedExpiring<u64, u64>,
    ask: Ask,
    now: u64,
) -> Option<u64> {
    match ask {
        Ask::Store => {
            let _ = entries.put(rt, 1, 7, now, 10);
            entries.peek(rt, &1, now).ok()?
        }
        Ask::LookUp => entries.get(rt, &1, now).ok()?,
        Ask::Peek => entries.peek(rt, &1, now).ok()?,
        Ask::End => entries.expires_at(rt, &1).ok()?,
        Ask::Load => {
            let loader = || Ok::<u64, Infallible>(hundreds(1, now));
            entries
                .get_or_insert_with(rt, &1, now, 10, loader)
                .ok()?
                .ok()
        }
        Ask::Many => entries.get_many(rt, alloc, &[1], now).ok()?.pop()?,
        Ask::Renew => {
            if entries.touch(rt, &1, now, 10) {
                entries.expires_at(rt, &1).ok()?
            } else {
                None
            }
        }
        Ask::Remove => entries.remove(rt, &1).map(|pair| pair.1.value),
        Ask::Clear => {
            entries.clear(rt);
            Some(entries.len(rt) as u64)
        }
        Ask::Resize => {
            entries.set_capacity(rt, 0);
            Some(entries.len(rt) as u64)
        }
        Ask::Purge => Some(entries.purge(rt, now) as u64),
        Ask::Count => Some(entries.stats(rt).capacity),
        Ask::Walk => Some(entries.cache().iter(rt).next()?.ok()?.1.value),
    }
}

fn ask_loader<R: Wait + Clock, F: Fn(&u64, u64) -> u64>(
    rt: &R,
    alloc: Global,
    loaded: &ReadThrough<u64, u64, F>,
    ask: Ask,
    now: u64,
) -> Option<u64>
    requires { F.IsAlwaysCallable loaded.now.loader }
{
    match ask {
        Ask::Store => {
            let _ = loaded.put(rt, 1, 7, now);
            loaded.peek(rt, &1, now).ok()?
        }
        Ask::LookUp => loaded.get(rt, &1, now).ok(),
        Ask::Peek => loaded.peek(rt, &1, now).ok()?,
        Ask::End => None,
        Ask::Load => loaded.get(rt, &1, now).ok(),
        Ask::Many => {
            let load_all = |keys: &[u64]| all_hundreds(alloc, keys, now);
            loaded
                .load_many(rt, alloc, &[1], now, load_all)
                .ok()?
                .ok()?
                .pop()
        }
        Ask::Renew => None,
        Ask::Remove => loaded.remove(rt, &1).map(|it| it.value),
        Ask::Clear => {
            loaded.clear(rt);
            Some(loaded.len(rt) as u64)
        }
        Ask::Resize => {
            loaded.set_capacity(rt, 0);
            Some(loaded.len(rt) as u64)
        }
        Ask::Purge => None,
        Ask::Count => Some(loaded.stats(rt).capacity),
        Ask::Walk => Some(loaded.cache().iter(rt).next()?.ok()?.1.value),
    }
}

#[test]
fn each_cache_answers_as_the_table_says(rt: HostRuntime) {
    for (ask, now, told) in CELLS {
        let mut alone: Expiring<u64, u64> = expect_ok!(rt; Expiring::new(rt.alloc(), 8));
        let shared: SharedExpiring<u64, u64> = expect_ok!(rt; SharedExpiring::new(rt.alloc(), 8));
        let loaded: ReadThrough<u64, u64, _> = expect_ok!(rt; ReadThrough::new(
            rt.alloc(),
            8,
            10,
            |key: &u64, now: u64| hundreds(*key, now),
        ));
        let stored = [
            alone.put(1, 100, 0, 10),
            shared.put(&rt, 1, 100, 0, 10),
            loaded.put(&rt, 1, 100, 0),
        ];
        let seen = [
            ask_alone(&mut alone, ask, now),
            ask_shared(&rt, rt.alloc(), &shared, ask, now),
            ask_loader(&rt, rt.alloc(), &loaded, ask, now),
        ];
        expect_eq!(rt; (ask, now, stored, seen), (ask, now, [Ok(()); 3], told));
    }
}
