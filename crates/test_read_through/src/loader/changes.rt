//! What is changed while a key is loaded, or asked for anew: what was changed stands, and no value
//! whose load had begun before it is stored over that.
use crate::loader::hundreds::hundreds;
use read_through::{ReadThrough, Refusal};
use std::sync::{Barrier, Wait};
use std::thread::join;
use std::time::Clock;
use test_tools::{expect_eq, expect_ok};

/// What another does meanwhile, and what the key answers later: where it was stored and is asked for
/// anew, and where it is loaded. The load of the moment 20 gives 120.
const CHANGES: [(Change, u64); 6] = [
    (Change::Nothing, 120),
    (Change::Remove, 126),
    (Change::RemoveAndLoad, 125),
    (Change::Put, 7),
    (Change::Invalidate, 126),
    (Change::InvalidateOther, 120),
];

/// What is done to the key 1 at the moment 25.
#[derive(Clone, Copy, Debug, PartialEq)]
enum Change {
    Nothing,
    Remove,
    RemoveAndLoad,
    Put,
    Invalidate,
    InvalidateOther,
}

/// Does it.
fn make<R: Wait + Clock, F: Fn(&u64, u64) -> u64>(
    rt: &R,
    change: Change,
    loaded: &ReadThrough<u64, u64, F>,
)
    requires { F.IsAlwaysCallable loaded.now.loader }
{
    match change {
        Change::Nothing => {}
        Change::Remove => drop(loaded.remove(rt, &1)),
        Change::RemoveAndLoad => {
            let _ = loaded.remove(rt, &1);
            let _ = loaded.get(rt, &1, 25);
        }
        Change::Put => drop(loaded.put(rt, 1, 7, 25)),
        Change::Invalidate => {
            loaded.invalidate_if(rt, |key: &u64| *key == 1);
        }
        Change::InvalidateOther => {
            loaded.invalidate_if(rt, |key: &u64| *key == 2);
        }
    }
}

/// Asks for the key 1 at the moment 20, anew where it is older than five moments.
fn ask<R: Wait + Clock, F: Fn(&u64, u64) -> u64>(
    rt: &R,
    loaded: &ReadThrough<u64, u64, F>,
) -> Result<u64, Refusal>
    requires { F.IsAlwaysCallable loaded.now.loader }
{
    loaded.get_or_refresh(rt, &1, 20, 5)
}

#[test]
fn a_value_whose_load_began_before_a_change_is_not_stored_behind_it(rt: HostRuntime) {
    let (rt, both) = (&rt, &Barrier::new(2));
    for (meanwhile, later) in CHANGES {
        for first in [5, 20] {
            let loaded: ReadThrough<u64, u64, _> = expect_ok!(rt; ReadThrough::new(
                rt.alloc(),
                8,
                100,
                |key: &u64, now: u64| {
                    if now == 20 {
                        both.wait(rt);
                        both.wait(rt);
                    }
                    hundreds(*key, now)
                },
            ));
            let loaded = &loaded;
            if first == 5 {
                expect_eq!(rt; loaded.get(rt, &1, 5), Ok(105));
            }
            let asks = || ask(rt, loaded);
            let changes = || {
                both.wait(rt);
                make(rt, meanwhile, loaded);
                both.wait(rt);
            };
            expect_eq!(rt; join(rt, asks, changes), (Ok(120), ()));
            let answer = loaded.get(rt, &1, 26);
            expect_eq!(rt; (meanwhile, first, answer), (meanwhile, first, Ok(later)));
        }
    }
}
