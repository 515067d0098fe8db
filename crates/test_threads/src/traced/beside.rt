//! A cache with one history beside the traced one: four threads make each call of both, and what
//! both answer is what a cache for one thread answers to the calls of the list.
ghost use Rattle.std.specs.Prelude.{◌≡◌};

use crate::traced::history::{History, Numbers, history_of, is_replayed, traced_numbers};
use quick_cache::sync::{PARTS, Seat};
use quick_cache::unsync::DefaultLifecycle;
use quick_cache::{DefaultHashBuilder, OptionsBuilder, Refusal, UnitWeighter};
use quick_cache_history::{self as history, Naming, Recorded};
use std::alloc::Global;
use std::marker::Brand;
use std::sync::ledger::{Blank, Ledger};
use std::sync::{Mutex, Wait};
use std::test::Fail;
use std::thread::{Threads, map_indices};
use test_tools::{expect, expect_eq};

/// A cache of numbers with one history.
type Recording<J> = Recorded<
    u64,
    u64,
    UnitWeighter,
    DefaultHashBuilder,
    DefaultLifecycle<u64, u64>,
    J,
>;

/// How many items there may be, and how many keys there are.
const ITEMS: usize = 40;

const KEYS: u64 = 64;

/// What threads hold while they make a call of both caches: the seat of the traced one, how many
/// calls were not answered alike, and how many look-ups found an item.
#[derive(Drop)]
struct Made<G: Ledger> {
    seat: Seat<G>,
    unlike: u64,
    found: u64,
}

/// Makes a call of both caches.
fn make<J: Naming, G: Ledger, R: Wait>(
    rt: &R,
    recorded: &Recording<J>,
    seat: &mut history::Seat<u64, u64, J>,
    traced: &Numbers<G>,
    made: &mut Made<G>,
    drawn: u64,
) -> Result<(), Refusal> {
    let key = (drawn >> 32) % KEYS;
    let alike = match drawn >> 60 {
        0..5 => {
            recorded.insert(rt, seat, key, drawn).is_ok()
                && traced.insert(rt, &mut made.seat, key, drawn).is_ok()
        }
        5..14 => {
            let found = recorded.get(rt, seat, &key)?;
            made.found = made.found.saturating_add(u64::from(found.is_some()));
            found == traced.get(rt, &mut made.seat, &key)?
        }
        _ => recorded.remove(rt, seat, &key) == traced.remove(rt, &mut made.seat, &key)?,
    };
    made.unlike = made.unlike.saturating_add(u64::from(!alike));
    Ok(())
}

/// Makes 25,000 drawn calls of both caches, and looks at the one with a history before each, beside
/// the calls of others.
fn make_many<J: Naming, G: Ledger, R: Wait>(
    rt: &R,
    recorded: &Recording<J>,
    traced: &Numbers<G>,
    made: &Mutex<Made<G>>,
    first: u64,
) -> Result<(), Refusal> {
    let mut seat = recorded.seat();
    let mut drawn = first;
    for _ in 0..25000 {
        drawn = drawn
            .wrapping_mul(6364136223846793005)
            .wrapping_add(1442695040888963407);
        recorded.peek(rt, &mut seat, &(drawn % KEYS))?;
        make(rt, recorded, &mut seat, traced, &mut made.lock(rt), drawn)?;
    }
    Ok(())
}

/// What four threads made, and the list of the traced cache.
fn made_by_four<J: Naming + Send + Sync, G: Ledger + Send + Sync, R: Threads + Wait + Sync>(
    rt: &R,
    alloc: Global,
    history: history::History<u64, u64>,
    blank: Blank,
) -> Result<(u64, u64, History), Fail>
    requires history { history ≡ J.book }
    requires name { blank.name ≡ G.name }
    requires parts { blank.parts ≡ G.parts }
    requires all { G.parts ≡ PARTS }
{
    let (builder, lifecycle) = (DefaultHashBuilder::new(), DefaultLifecycle::new());
    let recorded: Recording<J> = Recorded::new(alloc, history, UnitWeighter, builder, lifecycle)?;
    let (traced, seat) = traced_numbers::<G>(alloc, blank, ITEMS)?;
    let made = Mutex::new(Made {
        seat,
        unlike: 0,
        found: 0,
    });
    let threads = map_indices(
        rt,
        alloc,
        4,
        &|index| make_many(rt, &recorded, &traced, &made, index as u64),
    )?;
    for done in threads {
        done?;
    }
    let Made {
        mut seat,
        unlike,
        found,
    } = made.into_inner();
    let Some(other) = seat.split() else {
        return Err(Fail::new("a seat has many parts"));
    };
    Ok((unlike, found, history_of(alloc, traced, seat, other)?))
}

#[test]
fn both_answer_as_the_list_is_replayed(rt: HostRuntime) -> Result<(), Fail> {
    let mut options = OptionsBuilder::new();
    options
        .estimated_items_capacity(ITEMS)
        .weight_capacity(ITEMS as u64)
        .shards(1);
    let (unlike, found, list) = made_by_four::<Brand, Brand, _>(
        &rt,
        rt.alloc(),
        history::History::new(options.build()?),
        Blank::new(PARTS),
    )?;
    expect_eq!(rt; list.len(), 100000);
    expect_eq!(rt; unlike, 0);
    expect!(rt; found > 20000);
    expect!(rt; is_replayed(rt.alloc(), ITEMS, list)?);
    Ok(())
}
