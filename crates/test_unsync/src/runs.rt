//! Lists of calls: one of each kind, and calls that come back.
mod thousand;

ghost use Rattle.std.specs.Prelude.{All, IfOk};
ghost use Rattle.quick_cache_runs.specs.Asked.{IfAsks};

use crate::Predicate;
use quick_cache_base::Refusal;
use quick_cache_runs::{Call, Reply, run};
use quick_cache_unsync::Cache;
use std::alloc::{AllocError, Allocator, Global};
use std::process::Abort;
use test_tools::{Rationed, expect, expect_eq, expect_ok};

/// The replies to these calls, which one `run` makes.
pub(crate) fn replies_to<F: Fn(&u64, &u64) -> bool + Drop, M: Allocator + Clone>(
    rt: &impl Abort,
    alloc: M,
    cache: &mut Cache<u64, u64>,
    calls: Vec<Call<u64, u64, F>, M>,
) -> Vec<Reply<u64, u64, M>, M>
    requires callable { All (IfAsks (λ asked. F.IsAlwaysCallable asked)) calls.items }
{
    let replies = run(alloc, cache, calls, &mut ()).ok();
    replies.expect(rt, "there is memory")
}

/// A call of a list, with its reply.
type Row<F> = (Call<u64, u64, F>, Reply<u64, u64>);

/// The calls of these rows, and their replies.
fn parted<F: Fn(&u64, &u64) -> bool + Drop>(
    alloc: Global,
    rows: Vec<Row<F>>,
) -> Result<(Vec<Call<u64, u64, F>>, Vec<Reply<u64, u64>>), AllocError>
    requires { All (λ row. IfAsks (λ asked. F.IsAlwaysCallable asked) row.0) rows.items }
    ensures { IfOk result (λ lists.
        All (IfAsks (λ asked. F.IsAlwaysCallable asked)) lists.0.items) }
{
    let (mut calls, mut wanted) = (Vec::new(alloc), Vec::new(alloc));
    for (call, reply) in rows {
        calls.push(call)?;
        wanted.push(reply)?;
    }
    Ok((calls, wanted))
}

/// Makes the calls of these rows in turn, and stops the test where a reply is another.
fn make<F: Fn(&u64, &u64) -> bool + Drop>(
    rt: &impl Abort,
    alloc: Global,
    cache: &mut Cache<u64, u64>,
    rows: Vec<Row<F>>,
)
    requires { All (λ row. IfAsks (λ asked. F.IsAlwaysCallable asked) row.0) rows.items }
{
    let (calls, wanted) = expect_ok!(rt; parted(alloc, rows));
    let replies = replies_to(rt, alloc, cache, calls);
    expect_eq!(rt; replies.as_slice(), wanted.as_slice());
}

#[test]
fn a_list_of_calls_is_made_in_order(rt: HostRuntime) {
    let alloc = rt.alloc();
    let mut cache: Cache<u64, u64> = expect_ok!(rt; Cache::new(alloc, 1));
    let rows: Vec<Row<Predicate>> = expect_ok!(rt; vec![in alloc;
        (Call::Insert(1, 10), Reply::Done),
        (Call::Get(1), Reply::Value(Some(10))),
        (Call::Insert(2, 20), Reply::Done),
        (Call::Get(2), Reply::Value(Some(20))),
        (Call::Get(1), Reply::Value(None)),
        (Call::Remove(2), Reply::Pair(Some((2, 20)))),
    ]);
    make(&rt, alloc, &mut cache, rows);
}

/// The reply of so many items in a cache of this capacity, which had six hits and eight misses.
fn counts(items: u64, capacity: u64) -> Reply<u64, u64> {
    Reply::Counts {
        len: items as usize,
        weight: items,
        capacity,
        hits: 6,
        misses: 8,
    }
}

/// Writes and looks, and then loads by a loader and by a guard that gives a value, or none.
fn writes_and_loads(rt: &impl Abort, alloc: Global, cache: &mut Cache<u64, u64>) {
    let rows: Vec<Row<Predicate>> = expect_ok!(rt; vec![in alloc;
        (Call::Insert(1, 10), Reply::Done),
        (Call::Replace(1, 11, false), Reply::Done),
        (Call::Replace(2, 20, true), Reply::NotAdmitted(2, 20)),
        (Call::Get(1), Reply::Value(Some(11))),
        (Call::Peek(2), Reply::Value(None)),
        (Call::GetMut(1, 12), Reply::Flag(true)),
        (Call::PeekMut(2, 20), Reply::Flag(false)),
        (Call::Contains(1), Reply::Flag(true)),
        (Call::Stats(1), Reply::Stats(Some(2))),
    ]);
    make(rt, alloc, cache, rows);
    let rows: Vec<Row<Predicate>> = expect_ok!(rt; vec![in alloc;
        (Call::Load(2, Some(20)), Reply::Loaded(true)),
        (Call::Load(3, None), Reply::LoadFailed),
        (Call::Load(2, None), Reply::Found(20)),
        (Call::LoadMut(3, Some(30), 31), Reply::Loaded(true)),
        (Call::LoadMut(3, None, 32), Reply::Found(31)),
        (Call::LoadMut(4, None, 40), Reply::LoadFailed),
    ]);
    make(rt, alloc, cache, rows);
    let rows: Vec<Row<Predicate>> = expect_ok!(rt; vec![in alloc;
        (Call::Guarded(4, None), Reply::Dropped),
        (Call::Guarded(4, Some(40)), Reply::Filled),
        (Call::Guarded(4, None), Reply::Found(40)),
        (Call::GuardedMut(5, Some(50), 51), Reply::Filled),
        (Call::GuardedMut(5, None, 51), Reply::Found(50)),
        (Call::GuardedMut(6, None, 60), Reply::Dropped),
        (Call::Counts, counts(5, 5)),
    ]);
    make(rt, alloc, cache, rows);
}

#[test]
fn each_kind_of_call_has_its_reply(rt: HostRuntime) {
    let alloc = rt.alloc();
    let mut cache: Cache<u64, u64> = expect_ok!(rt; Cache::new(alloc, 5));
    writes_and_loads(&rt, alloc, &mut cache);
    let small = |_: &u64, value: &u64| *value < 25;
    let rows = expect_ok!(rt; vec![in alloc;
        (Call::RemoveIf(3, small), Reply::Pair(None)),
        (Call::RemoveIf(1, small), Reply::Pair(Some((1, 12)))),
        (Call::Retain(small), Reply::Done),
        (
            Call::Iter,
            Reply::Pairs(expect_ok!(rt; vec![in alloc; (2, 20)])),
        ),
        (Call::Remove(4), Reply::Pair(None)),
    ]);
    make(&rt, alloc, &mut cache, rows);
    let rows: Vec<Row<Predicate>> = expect_ok!(rt; vec![in alloc;
        (Call::SetCapacity(7), Reply::Done),
        (Call::Reserve(2), Reply::Done),
        (
            Call::Drain,
            Reply::Pairs(expect_ok!(rt; vec![in alloc; (2, 20)])),
        ),
        (Call::Clear, Reply::Done),
        (Call::Counts, counts(0, 7)),
    ]);
    make(&rt, alloc, &mut cache, rows);
}

#[test]
fn calls_come_back_where_replies_have_no_room(rt: HostRuntime) {
    let ration = Rationed::new(rt.alloc(), 1);
    let mut cache: Cache<u64, u64> = expect_ok!(rt; Cache::new(rt.alloc(), 5));
    let calls = expect_ok!(rt; vec![in &ration;
        Call::Insert(1, 10),
        Call::Get(1),
        Call::Retain(|_: &u64, _: &u64| true),
    ]);
    ration.allow(0);
    let (replies, calls) = run(&ration, &mut cache, calls, &mut ())
        .err()
        .expect(&rt, "there is no room");
    expect_eq!(rt; replies.len(), 0);
    expect!(rt;
        matches!(
            calls.as_slice(),
            [Call::Insert(1, 10), Call::Get(1), Call::Retain(_)]
        )
    );
    expect!(rt; cache.is_empty());
}

#[test]
fn a_list_of_a_reply_may_be_refused(rt: HostRuntime) {
    let ration = Rationed::new(rt.alloc(), 1);
    let mut cache: Cache<u64, u64> = expect_ok!(rt; Cache::new(rt.alloc(), 5));
    let calls: Vec<Call<u64, u64, Predicate>, &Rationed<Global>> = expect_ok!(rt; vec![in &ration;
        Call::Insert(1, 10),
        Call::Iter,
        Call::Drain,
        Call::Get(1),
    ]);
    ration.allow(1);
    let replies = replies_to(&rt, &ration, &mut cache, calls);
    expect!(rt;
        matches!(
            replies.as_slice(),
            [
                Reply::Done,
                Reply::Refused(Refusal::Memory),
                Reply::Refused(Refusal::Memory),
                Reply::Value(Some(10)),
            ]
        )
    );
}
