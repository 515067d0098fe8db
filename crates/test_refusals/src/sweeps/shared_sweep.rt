//! Each request for memory of a row of calls refused in turn, in the cache that threads share.
//!
//! Its rings, marks and ghosts cannot be seen from outside. So a run that stops at the refusal ends
//! as all runs do: with what is loading while the guards and the tasks go, and with calls whose
//! victims tell what stood where. It has to tell the same as one that stopped before that call.
use crate::drawn::Drawn;
use crate::sweeps::long_rows::{blocks_of_try, shared_mixed, walked_and_drained};
use crate::sweeps::shared_rows::{ROWS, Row, Step};
use crate::sweeps::slip::{ByDigits, ByHundreds, Slip};
use crate::sweeps::stage::{AMPLE, Outcome, Slips, Stage};
use futures::test::MockTask;
use quick_cache_sync::Cache;
use std::alloc::{AllocError, Global};
use std::sync::Wait;
use std::test::Fail;
use std::time::Clock;
use test_parts::thousand::Thousand;
use test_tools::{Rationed, expect_ok};

/// How far a row is made.
#[derive(Clone, Copy)]
struct Plan {
    /// How many of its calls.
    count: usize,
    /// A call behind these.
    last: Option<Step>,
    /// For how many blocks there is memory up to the first refusal.
    blocks: u64,
    /// Whether a refused call is made again, with ample memory, and all others behind it.
    goes_on: bool,
    /// Whether each call is made with memory for no block, for one, and so on, until it is made.
    refuses_each: bool,
}

/// What came of a row.
#[derive(Clone, Copy)]
struct Ended {
    /// What the calls told, and what can be told of the cache in the end.
    drawn: Drawn,
    hits: u64,
    misses: u64,
    /// The place of the call that was refused, if one was.
    refused: Option<usize>,
    /// Whether that call answered a value that it loaded, and could not keep it.
    is_not_kept: bool,
}

/// Makes a refused call again. A task that was refused has answered, and another one comes in its
/// place.
fn make_again<R: Wait + Clock>(stage: &mut Stage<'_, '_, R>, step: Step) -> Result<Outcome, Fail> {
    match step {
        Step::Poll(key) => {
            drop(stage.tasks.pop());
            stage.make(Step::Poll(key))
        }
        Step::PollAgain(key) => {
            drop(stage.tasks.pop());
            stage.make(Step::Poll(key))
        }
        _ => stage.make(step),
    }
}

/// Makes a call with memory for no block, for one, and so on, until it is made, or with the memory
/// that there is. The place of the call is kept where it was refused.
fn make_step<R: Wait + Clock>(
    stage: &mut Stage<'_, '_, R>,
    step: Step,
    refuses_each: bool,
    refused: &mut Option<usize>,
    at: usize,
) -> Result<Outcome, Fail> {
    if !refuses_each {
        return stage.make(step);
    }
    for tries in 0..AMPLE {
        stage.ration.allow(blocks_of_try(tries));
        let outcome = stage.make(step)?;
        if let Outcome::Made(_) = outcome {
            return Ok(outcome);
        }
        *refused = Some(at);
    }
    Err(Fail::new("a call is refused with ample memory"))
}

/// Makes the calls of a plan.
fn make_all<R: Wait + Clock>(
    stage: &mut Stage<'_, '_, R>,
    steps: &[Step],
    plan: Plan,
) -> Result<Ended, Fail> {
    let mut ended = Ended {
        drawn: Drawn::default(),
        hits: 0,
        misses: 0,
        refused: None,
        is_not_kept: false,
    };
    for (at, step) in steps.iter().enumerate() {
        if at >= plan.count {
            break;
        }
        let mut outcome = make_step(stage, *step, plan.refuses_each, &mut ended.refused, at)?;
        if !matches!(outcome, Outcome::Made(_)) {
            ended.refused = Some(at);
            ended.is_not_kept = matches!(outcome, Outcome::NotKept);
            stage.ration.allow(AMPLE);
            if !plan.goes_on {
                break;
            }
            outcome = make_again(stage, *step)?;
        }
        match outcome {
            Outcome::Made(told) => ended.drawn.add(&[told.sum]),
            _ => return Err(Fail::new("a call is refused with ample memory")),
        }
    }
    Ok(ended)
}

/// Makes a call, and draws in what it tells.
fn tell<R: Wait + Clock>(
    stage: &mut Stage<'_, '_, R>,
    step: Step,
    drawn: &mut Drawn,
) -> Result<(), Fail> {
    if let Outcome::Made(told) = stage.make(step)? {
        drawn.add(&[told.sum]);
    }
    Ok(())
}

/// Draws in counts, and what can be read of the keys.
fn counts<R: Wait + Clock>(stage: &mut Stage<'_, '_, R>, drawn: &mut Drawn) -> Result<(), Fail> {
    let (rt, cache) = (stage.rt, stage.cache);
    drawn.add(&[cache.len(rt) as u64, cache.weight(rt), cache.capacity(rt)]);
    for key in stage.keys {
        if let Some(stats) = cache.item_stats(rt, key) {
            drawn.add(&[key.number, stats.access_count]);
        }
    }
    for key in 0..10 {
        tell(stage, Step::Peek(key), drawn)?;
    }
    Ok(())
}

/// Draws in which keys are there, which are being loaded, and which are absent.
fn loading<R: Wait + Clock>(stage: &mut Stage<'_, '_, R>, drawn: &mut Drawn) -> Result<(), Fail> {
    let guards = stage.guards.len();
    for key in 0..10 {
        tell(stage, Step::Guard(key), drawn)?;
        if stage.guards.len() > guards {
            drop(stage.guards.pop());
        }
    }
    Ok(())
}

/// Draws in who leaves for a small capacity and then for new pairs, which tells the rings, the marks
/// and the ghosts.
fn leaving<R: Wait + Clock>(stage: &mut Stage<'_, '_, R>, drawn: &mut Drawn) -> Result<(), Fail> {
    stage.make(Step::SetCapacity(4))?;
    counts(stage, drawn)?;
    for key in 0..24 {
        let number = if key < 10 { key } else { key * 1001 };
        stage.make(Step::Insert(number, 401))?;
        drawn.add(&[stage.told.sum]);
    }
    counts(stage, drawn)
}

/// A cache with no guards and no tasks.
fn staged<'c, 'a, R: Wait + Clock>(
    rt: &'c R,
    alloc: Global,
    polls: &'c MockTask,
    ration: &'a Rationed<Global>,
    cache: &'c Slips<'a>,
    keys: &'c [Slip<'a>],
) -> Stage<'c, 'a, R> {
    Stage {
        rt,
        ration,
        cache,
        keys,
        guards: Vec::new(alloc),
        tasks: Vec::new(alloc),
        polls,
        told: Drawn::default(),
    }
}

/// Makes a plan, and draws in what can be told of the cache then.
fn make_plan<R: Wait + Clock>(
    stage: &mut Stage<'_, '_, R>,
    steps: &[Step],
    plan: Plan,
) -> Result<Ended, Fail> {
    let (rt, cache) = (stage.rt, stage.cache);
    stage.ration.allow(plan.blocks);
    let mut ended = make_all(stage, steps, plan)?;
    stage.ration.allow(AMPLE);
    if let Some(last) = plan.last {
        stage.make(last)?;
    }
    (ended.hits, ended.misses) = (cache.hits(rt), cache.misses(rt));
    counts(stage, &mut ended.drawn)?;
    loading(stage, &mut ended.drawn)?;
    stage.guards.clear();
    loading(stage, &mut ended.drawn)?;
    stage.tasks.clear();
    loading(stage, &mut ended.drawn)?;
    leaving(stage, &mut ended.drawn)?;
    Ok(ended)
}

/// The keys that are read in the end.
fn read_keys<'a>(alloc: Global, ration: &'a Rationed<Global>) -> Result<Vec<Slip<'a>>, AllocError> {
    let mut keys = Vec::new(alloc);
    for number in 0..10 {
        keys.push(Slip::new(ration, number))?;
    }
    Ok(keys)
}

/// Makes a plan of a row on a new cache.
fn go<R: Wait + Clock>(
    rt: &R,
    alloc: Global,
    polls: &MockTask,
    row: &Row<'_>,
    plan: Plan,
) -> Result<Ended, Fail> {
    let ration = Rationed::new(alloc, AMPLE);
    let (_, items, weight, steps) = *row;
    let cache: Slips<'_> = Cache::with(&ration, items, weight, ByDigits, Thousand, ByHundreds)?;
    let keys = read_keys(alloc, &ration)?;
    let mut stage = staged(rt, alloc, polls, &ration, &cache, &keys);
    make_plan(&mut stage, steps, plan)
}

/// Whether both tell the same. A refused call may have met a placeholder, which counts a hit.
fn is_same(ended: &Ended, wanted: &Ended, step: Step, more_misses: u64) -> bool {
    let may_meet = matches!(
        step,
        Step::Wait(_) | Step::EntryWait(_) | Step::EntryTask(_, _) | Step::Poll(_)
    );
    let is_met = may_meet && ended.hits == wanted.hits.saturating_add(1);
    ended.drawn == wanted.drawn
        && (is_met || ended.hits == wanted.hits)
        && ended.misses == wanted.misses.saturating_add(more_misses)
}

/// All calls of a row, with ample memory.
fn whole_of(row: &Row<'_>) -> Plan {
    Plan {
        count: row.3.len(),
        last: None,
        blocks: AMPLE,
        goes_on: true,
        refuses_each: false,
    }
}

/// The load of the same key that fails.
fn failed(step: Step) -> Option<Step> {
    match step {
        Step::Load(key, _) => Some(Step::Load(key, None)),
        Step::LoadTask(key, _) => Some(Step::Load(key, None)),
        _ => None,
    }
}

/// Whether a row with so many blocks meets no refusal, or one that changes nothing, behind which it
/// ends as the whole row does.
fn is_right<R: Wait + Clock>(
    rt: &R,
    alloc: Global,
    polls: &MockTask,
    row: &Row<'_>,
    wanted: &Ended,
    stopped: &Ended,
    blocks: u64,
) -> Result<bool, Fail> {
    let Some(at) = stopped.refused else {
        return Ok(true);
    };
    let Some(step) = row.3.get(at).copied() else {
        return Ok(false);
    };
    let last = if stopped.is_not_kept {
        failed(step)
    } else {
        None
    };
    let whole = whole_of(row);
    let before = go(
        rt,
        alloc,
        polls,
        row,
        Plan {
            count: at,
            last,
            ..whole
        },
    )?;
    let ended = go(rt, alloc, polls, row, Plan { blocks, ..whole })?;
    let ends = is_same(&ended, wanted, step, stopped.is_not_kept as u64);
    Ok(is_same(stopped, &before, step, 0) && (ends || matches!(step, Step::PollAgain(_))))
}

#[test]
fn a_refused_call_is_as_if_it_had_not_been_made(rt: HostRuntime) -> Result<(), Fail> {
    let polls = expect_ok!(rt; MockTask::new(&rt));
    for row in &ROWS {
        let whole = whole_of(row);
        let wanted = go(&rt, rt.alloc(), &polls, row, whole)?;
        for blocks in 0..AMPLE {
            let plan = Plan {
                blocks,
                goes_on: false,
                ..whole
            };
            let stopped = go(&rt, rt.alloc(), &polls, row, plan)?;
            let is_over = stopped.refused.is_none();
            let is_right = is_right(&rt, rt.alloc(), &polls, row, &wanted, &stopped, blocks)?;
            assert!(rt;
                is_right && (blocks > 0 || !is_over),
                "{} with {blocks} blocks, at call {:?}",
                row.0,
                stopped.refused
            );
            if is_over {
                expect_ok!(rt; println!(rt; "{}: {blocks} requests were refused in turn", row.0));
                break;
            }
        }
    }
    Ok(())
}

#[test]
fn each_call_of_a_long_row_is_refused_and_then_made(rt: HostRuntime) -> Result<(), Fail> {
    let (alloc, polls) = (rt.alloc(), expect_ok!(rt; MockTask::new(&rt)));
    let (mixed, walked) = (shared_mixed(alloc)?, walked_and_drained(alloc)?);
    let rows: [Row<'_>; 2] = [
        ("a mixed run", 8, 8, &mixed),
        ("a walk and a drain", 1000, 1000, &walked),
    ];
    for row in &rows {
        let whole = whole_of(row);
        let wanted = go(&rt, alloc, &polls, row, whole)?;
        let plan = Plan {
            refuses_each: true,
            ..whole
        };
        let ended = go(&rt, alloc, &polls, row, plan)?;
        let is_right = is_same(&ended, &wanted, Step::Walk, 0) && ended.refused.is_some();
        assert!(rt; is_right, "{}", row.0);
    }
    Ok(())
}
