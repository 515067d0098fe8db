//! Each request for memory of a row of calls refused in turn, in the cache for one thread.
ghost use Rattle.quick_cache_runs.specs.Asked.{IfAsks};

use crate::drawn::Drawn;
use crate::sweeps::long_rows::{beside_a_weightless_item, blocks_of_try, mixed, scan};
use crate::sweeps::rows::{ROWS, Row, Step};
use crate::sweeps::slip::{ByDigits, ByHundreds, Slip};
use quick_cache_model::Refusal;
use quick_cache_runs::{Call, Reply, run};
use quick_cache_unsync::Cache;
use std::alloc::Global;
use std::test::Fail;
use test_parts::thousand::Thousand;
use test_tools::{Rationed, expect_ok};

/// More blocks than a row asks for.
const AMPLE: u64 = 100000;

/// A cache whose growths and whose clones can be refused.
type Slips<'a> = Cache<Slip<'a>, Slip<'a>, ByDigits, Thousand, ByHundreds, &'a Rationed<Global>>;

/// A call of it, and a reply.
type SlipCall<'a, F> = Call<Slip<'a>, Slip<'a>, F>;

type SlipReply<'a> = Reply<Slip<'a>, Slip<'a>, &'a Rationed<Global>>;

/// All that can be seen of a cache: counts and sizes, both rings with their marks and reads, the
/// ghosts, and what stands in no ring.
fn picture(cache: &Slips<'_>) -> Drawn {
    let shard = cache.shard();
    let mut drawn = Drawn::of(&[
        cache.len() as u64,
        cache.weight(),
        cache.capacity(),
        cache.hits(),
        cache.misses(),
        shard.hot_target(),
        shard.ghost_limit() as u64,
    ]);
    for (key, value, mark) in shard.iter_hot() {
        drawn.add(&[1, key.number, value.number, mark as u64]);
    }
    for (key, value, mark) in shard.iter_cold() {
        drawn.add(&[2, key.number, value.number, mark as u64]);
    }
    for hash in shard.iter_ghosts() {
        drawn.add(&[3, hash]);
    }
    for (key, value) in cache.iter() {
        let reads = match cache.item_stats(key) {
            Some(stats) => stats.access_count,
            None => u64::MAX,
        };
        drawn.add(&[4, key.number, value.number, reads]);
    }
    drawn
}

/// The call with slips for its numbers, and this predicate where it asks one.
fn call_of<'a, F: Fn(&Slip<'a>, &Slip<'a>) -> bool + Drop>(
    ration: &'a Rationed<Global>,
    step: &Step,
    keep: F,
) -> SlipCall<'a, F>
    requires { F.IsAlwaysCallable keep }
    ensures { IfAsks (λ asked. F.IsAlwaysCallable asked) result }
{
    let slip = |number: &u64| Slip::new(ration, *number);
    let loaded = |value: &Option<u64>| match value {
        Some(number) => Some(Slip::new(ration, *number)),
        None => None,
    };
    match step {
        Call::Insert(key, value) => Call::Insert(slip(key), slip(value)),
        Call::Replace(key, value, soft) => Call::Replace(slip(key), slip(value), *soft),
        Call::Get(key) => Call::Get(slip(key)),
        Call::Peek(key) => Call::Peek(slip(key)),
        Call::GetMut(key, value) => Call::GetMut(slip(key), slip(value)),
        Call::PeekMut(key, value) => Call::PeekMut(slip(key), slip(value)),
        Call::Contains(key) => Call::Contains(slip(key)),
        Call::Stats(key) => Call::Stats(slip(key)),
        Call::Remove(key) => Call::Remove(slip(key)),
        Call::RemoveIf(key, ()) => Call::RemoveIf(slip(key), keep),
        Call::Load(key, value) => Call::Load(slip(key), loaded(value)),
        Call::LoadMut(key, value, last) => Call::LoadMut(slip(key), loaded(value), slip(last)),
        Call::Guarded(key, value) => Call::Guarded(slip(key), loaded(value)),
        Call::GuardedMut(key, value, last) => Call::GuardedMut(
            slip(key),
            loaded(value),
            slip(last),
        ),
        Call::Iter => Call::Iter,
        Call::Drain => Call::Drain,
        Call::Counts => Call::Counts,
        Call::Retain(()) => Call::Retain(keep),
        Call::SetCapacity(capacity) => Call::SetCapacity(*capacity),
        Call::Reserve(additional) => Call::Reserve(*additional),
        Call::Clear => Call::Clear,
    }
}

/// What came of a call.
#[derive(Clone, Copy)]
enum Outcome {
    /// It was made, and its reply tells this.
    Made(Drawn),
    /// There was no memory for it, and what it was handed came back.
    Refused,
    /// There was no memory for it, and something else came back.
    Lost,
}

/// A call was made, whose reply tells these numbers.
fn made(numbers: &[u64]) -> Outcome {
    Outcome::Made(Drawn::of(numbers))
}

/// Tells whether the pair that came back is that of the step.
fn refused(step: &Step, key: u64, value: u64) -> Outcome {
    if *step == Call::Insert(key, value) {
        Outcome::Refused
    } else {
        Outcome::Lost
    }
}

/// What pairs tell, in numbers.
fn shown(pairs: &[(Slip<'_>, Slip<'_>)]) -> Outcome {
    let mut drawn = Drawn::default();
    for (key, value) in pairs {
        drawn.add(&[16, key.number, value.number]);
    }
    Outcome::Made(drawn)
}

/// What a reply tells, or that its call was refused for want of memory.
fn outcome_of(reply: &SlipReply<'_>, step: &Step) -> Outcome {
    match reply {
        Reply::RefusedPair(key, value, Refusal::Memory) => refused(step, key.number, value.number),
        Reply::Refused(Refusal::Memory) => Outcome::Refused,
        Reply::Done => made(&[1]),
        Reply::RefusedPair(key, value, _) => made(&[2, key.number, value.number]),
        Reply::NotAdmitted(key, value) => made(&[3, key.number, value.number]),
        Reply::Value(Some(value)) => made(&[4, value.number]),
        Reply::Value(None) => made(&[5]),
        Reply::Flag(flag) => made(&[6, *flag as u64]),
        Reply::Stats(Some(reads)) => made(&[7, *reads]),
        Reply::Stats(None) => made(&[8]),
        Reply::Pair(Some((key, value))) => made(&[9, key.number, value.number]),
        Reply::Pair(None) => made(&[10]),
        Reply::Found(value) => made(&[11, value.number]),
        Reply::Loaded(stays) => made(&[12, *stays as u64]),
        Reply::LoadFailed => made(&[13]),
        Reply::Filled => made(&[14]),
        Reply::Dropped => made(&[15]),
        Reply::Pairs(pairs) => shown(pairs),
        Reply::Counts {
            len,
            weight,
            capacity,
            hits,
            misses,
        } => made(&[17, *len as u64, *weight, *capacity, *hits, *misses]),
        Reply::Refused(_) => made(&[18]),
    }
}

/// Makes a call by a list of one, for which there is memory.
fn make<'a>(
    ration: &'a Rationed<Global>,
    cache: &mut Slips<'a>,
    step: &Step,
    told: &mut Drawn,
) -> Result<Outcome, Fail> {
    let left = ration.left();
    ration.allow(AMPLE);
    let keep = |key: &Slip<'_>, _: &Slip<'_>| key.number % 2 == 0;
    let calls = vec![in ration; call_of(ration, step, keep)]?;
    ration.allow(left);
    Ok(match run(ration, cache, calls, told) {
        Ok(replies) => match replies.first() {
            Some(reply) => outcome_of(reply, step),
            None => Outcome::Lost,
        },
        Err((replies, calls)) => {
            if replies.is_empty() && calls.len() == 1 {
                Outcome::Refused
            } else {
                Outcome::Lost
            }
        }
    })
}

/// What came of a row.
#[derive(Clone, Copy)]
struct Ended {
    /// What the calls answered and told to hooks, and all that is seen of the cache and of a copy of
    /// it in the end.
    drawn: Drawn,
    /// The place of the call that was refused, if one was.
    refused: Option<usize>,
    /// Whether a refused call changed nothing, told nothing, and gave back what it was handed.
    is_unchanged: bool,
}

/// Nothing was made yet.
fn new_end() -> Ended {
    Ended {
        drawn: Drawn::default(),
        refused: None,
        is_unchanged: true,
    }
}

/// Makes calls up to the first refusal. There is ample memory from then on, and the refused call is
/// made again.
fn make_all<'a>(
    ration: &'a Rationed<Global>,
    cache: &mut Slips<'a>,
    steps: &[Step],
) -> Result<Ended, Fail> {
    let mut ended = new_end();
    for (at, step) in steps.iter().enumerate() {
        let before = picture(cache);
        let mut told = Drawn::default();
        let mut outcome = make(ration, cache, step, &mut told)?;
        if let Outcome::Refused = outcome {
            ended.refused = Some(at);
            ended.is_unchanged = picture(cache) == before && told == Drawn::default();
            ration.allow(AMPLE);
            outcome = make(ration, cache, step, &mut told)?;
        }
        let Outcome::Made(answer) = outcome else {
            return Err(Fail::new(
                "a call is refused with ample memory, or loses what it was handed",
            ));
        };
        ended.drawn.add(&[answer.sum, told.sum]);
    }
    copy(ration, cache, steps.len(), &mut ended)?;
    Ok(ended)
}

/// Makes the calls of a row on a new cache, with memory for so many blocks up to the first refusal.
fn go(alloc: Global, row: &Row<'_>, blocks: u64) -> Result<Ended, Fail> {
    let ration = Rationed::new(alloc, blocks);
    let (_, items, weight, steps) = *row;
    let mut cache: Slips<'_> = Cache::with(&ration, items, weight, ByDigits, Thousand, ByHundreds)?;
    make_all(&ration, &mut cache, steps)
}

/// Draws in what is seen of a cache and of a copy of it, which is made again where it was refused.
fn copy(
    ration: &Rationed<Global>,
    cache: &Slips<'_>,
    at: usize,
    ended: &mut Ended,
) -> Result<(), Fail> {
    let before = picture(cache);
    let copied = match cache.try_clone() {
        Ok(copied) => copied,
        Err(_) => {
            ended.refused = Some(at);
            ended.is_unchanged = picture(cache) == before;
            ration.allow(AMPLE);
            cache.try_clone()?
        }
    };
    ended.drawn.add(&[before.sum, picture(&copied).sum]);
    Ok(())
}

#[test]
fn a_refused_call_is_as_if_it_had_not_been_made(rt: HostRuntime) -> Result<(), Fail> {
    for row in &ROWS {
        let whole = go(rt.alloc(), row, AMPLE)?;
        for blocks in 0..AMPLE {
            let ended = go(rt.alloc(), row, blocks)?;
            let is_over = ended.refused.is_none();
            assert!(rt;
                ended.is_unchanged && ended.drawn == whole.drawn && (blocks > 0 || !is_over),
                "{} with {blocks} blocks, at call {:?}",
                row.0,
                ended.refused
            );
            if is_over {
                expect_ok!(rt; println!(rt; "{}: {blocks} requests were refused in turn", row.0));
                break;
            }
        }
    }
    Ok(())
}

/// Makes a call with memory for no block, for one, and so on, until it is made. It answers how often
/// it was refused.
fn make_at_last<'a>(
    ration: &'a Rationed<Global>,
    cache: &mut Slips<'a>,
    step: &Step,
    ended: &mut Ended,
) -> Result<u64, Fail> {
    let before = picture(cache);
    for tries in 0..AMPLE {
        ration.allow(blocks_of_try(tries));
        let mut told = Drawn::default();
        match make(ration, cache, step, &mut told)? {
            Outcome::Made(answer) => {
                ended.drawn.add(&[answer.sum, told.sum]);
                return Ok(tries);
            }
            Outcome::Refused => {
                let is_unchanged = picture(cache) == before && told == Drawn::default();
                ended.is_unchanged = ended.is_unchanged && is_unchanged;
            }
            Outcome::Lost => return Err(Fail::new("a call loses what it was handed")),
        }
    }
    Err(Fail::new("a call is refused with ample memory"))
}

/// Makes all calls so, and tells how often one was refused.
fn make_all_at_last<'a>(
    ration: &'a Rationed<Global>,
    cache: &mut Slips<'a>,
    steps: &[Step],
) -> Result<(Ended, u64), Fail> {
    let mut ended = new_end();
    let mut refusals = 0u64;
    for step in steps {
        let refused = make_at_last(ration, cache, step, &mut ended)?;
        refusals = refusals.saturating_add(refused);
    }
    ration.allow(AMPLE);
    copy(ration, cache, steps.len(), &mut ended)?;
    Ok((ended, refusals))
}

/// Makes all calls of a row so on a new cache.
fn go_on(alloc: Global, row: &Row<'_>) -> Result<(Ended, u64), Fail> {
    let ration = Rationed::new(alloc, AMPLE);
    let (_, items, weight, steps) = *row;
    let mut cache: Slips<'_> = Cache::with(&ration, items, weight, ByDigits, Thousand, ByHundreds)?;
    make_all_at_last(&ration, &mut cache, steps)
}

#[test]
fn each_call_of_a_long_row_is_refused_and_then_made(rt: HostRuntime) -> Result<(), Fail> {
    let alloc = rt.alloc();
    let (scan, mixed) = (scan(alloc)?, mixed(alloc)?);
    let beside = beside_a_weightless_item(alloc)?;
    let rows: [Row<'_>; 3] = [
        ("a thousand keys pass ninety-seven", 100, 100, &scan),
        ("an item of weight 0 outlives others", 100, 100, &beside),
        ("a mixed run", 8, 8, &mixed),
    ];
    for row in &rows {
        let whole = go(alloc, row, AMPLE)?;
        let (ended, refusals) = go_on(alloc, row)?;
        assert!(rt;
            ended.is_unchanged && ended.drawn == whole.drawn && refusals > 0,
            "{}",
            row.0
        );
        expect_ok!(rt; println!(rt; "{}: {refusals} refusals", row.0));
    }
    Ok(())
}
