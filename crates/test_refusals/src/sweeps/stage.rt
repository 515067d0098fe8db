//! The calls of a row on the cache that threads share, with the guards and the tasks that they
//! leave behind.
use crate::drawn::Drawn;
use crate::sweeps::shared_rows::Step;
use crate::sweeps::slip::{ByDigits, ByHundreds, Slip};
use futures::task::Poll;
use futures::test::MockTask;
use quick_cache_guard::tasks::ValueOrGuard;
use quick_cache_guard::{FillError, GuardResult, PlaceholderGuard};
use quick_cache_locked::LockedShard;
use quick_cache_model::Refusal;
use quick_cache_sync::{Cache, Iter, TryError};
use std::alloc::Global;
use std::sync::Wait;
use std::test::Fail;
use std::time::{Clock, Duration};
use test_parts::thousand::Thousand;
use test_tools::Rationed;

/// More blocks than a row asks for.
pub(crate) const AMPLE: u64 = 100000;

/// A cache whose growths and whose clones can be refused.
pub(crate) type Slips<'a> = Cache<
    Slip<'a>,
    Slip<'a>,
    ByDigits,
    Thousand,
    ByHundreds,
    &'a Rationed<Global>,
>;

/// One of its shards, behind its lock.
type Shard<'a> = LockedShard<
    Slip<'a>,
    Slip<'a>,
    ByDigits,
    Thousand,
    ByHundreds,
    &'a Rationed<Global>,
>;

/// A walk over it.
pub(crate) type SlipWalk<'c, 'a, R> = Iter<
    'c,
    Slip<'a>,
    Slip<'a>,
    ByDigits,
    Thousand,
    ByHundreds,
    R,
    &'a Rationed<Global>,
>;

/// The numbers of the next pair of a walk, or its refusal, or nothing at its end.
pub(crate) fn next_shown<R: Wait>(
    walk: &mut SlipWalk<'_, '_, R>,
) -> Option<Result<[u64; 2], Refusal>> {
    match walk.next()? {
        Ok((key, value)) => Some(Ok([key.number, value.number])),
        Err(refusal) => Some(Err(refusal)),
    }
}

/// A guard of a key.
pub(crate) type SlipGuard<'c, 'a, R> = PlaceholderGuard<
    'c,
    Slip<'a>,
    Slip<'a>,
    ByHundreds,
    Shard<'a>,
    R,
    &'a Rationed<Global>,
>;

/// A task's wait for a value or a guard.
type SlipTask<'c, 'a, R> = ValueOrGuard<
    'c,
    'c,
    Slip<'a>,
    Slip<'a>,
    Slip<'a>,
    ByHundreds,
    Shard<'a>,
    R,
    &'a Rationed<Global>,
>;

/// What came of a call.
#[derive(Clone, Copy)]
pub(crate) enum Outcome {
    /// It was made, and this is what it told.
    Made(Drawn),
    /// There was no memory for it.
    Refused,
    /// The loaded value was answered, and there was no memory to keep it.
    NotKept,
}

/// A cache with the guards and the tasks of the calls so far.
#[derive(Drop)]
pub(crate) struct Stage<'c, 'a, R: Wait> {
    pub rt: &'c R,
    pub ration: &'a Rationed<Global>,
    pub cache: &'c Slips<'a>,
    /// The keys, in their order.
    pub keys: &'c [Slip<'a>],
    pub guards: Vec<SlipGuard<'c, 'a, R>>,
    pub tasks: Vec<SlipTask<'c, 'a, R>>,
    /// Polls the tasks.
    pub polls: &'c MockTask,
    /// What the hooks were told of.
    pub told: Drawn,
}

/// What was made tells these numbers.
pub(crate) fn made(numbers: &[u64]) -> Outcome {
    Outcome::Made(Drawn::of(numbers))
}

/// What a look tells, or that it was refused.
fn seen(found: Result<Option<Slip<'_>>, Refusal>) -> Outcome {
    match found {
        Ok(Some(value)) => made(&[1, value.number]),
        Ok(None) => made(&[2]),
        Err(Refusal::Memory) => Outcome::Refused,
        Err(_) => made(&[3]),
    }
}

/// What a look tells that does not wait.
fn tried(found: Result<Option<Slip<'_>>, TryError>) -> Outcome {
    match found {
        Ok(found) => seen(Ok(found)),
        Err(TryError::Refused(refusal)) => seen(Err(refusal)),
        Err(_) => made(&[17]),
    }
}

/// What an insert tells that was handed this pair: a refused one gives it back.
fn written(
    answer: Result<(), (Slip<'_>, Slip<'_>, Refusal)>,
    key: u64,
    value: u64,
) -> Result<Outcome, Fail> {
    match answer {
        Ok(()) => Ok(made(&[4])),
        Err((back, also, Refusal::Memory)) if back.number == key && also.number == value => {
            Ok(Outcome::Refused)
        }
        Err(_) => Err(Fail::new("the pair did not come back")),
    }
}

impl<'c, 'a, R: Wait + Clock> Stage<'c, 'a, R> {
    pub(crate) fn slip(&self, number: u64) -> Slip<'a> {
        Slip::new(self.ration, number)
    }

    /// Makes a call.
    pub(crate) fn make(&mut self, step: Step) -> Result<Outcome, Fail> {
        match step {
            Step::Insert(key, value) => self.insert(key, value),
            Step::TryInsert(key, value) => self.try_insert(key, value),
            Step::Guard(key) => self.guard(key, 0),
            Step::Wait(key) => self.guard(key, 1),
            Step::Fill(value) => self.fill(value),
            Step::Load(key, value) => self.load(key, value),
            Step::LoadTask(key, value) => self.load_task(key, value),
            Step::Entry(key, _)
            | Step::EntryWait(key)
            | Step::EntryRemove(key)
            | Step::EntryReplace(key) => self.entry(key, step),
            Step::EntryTask(key, more) => self.entry_task(key, more),
            Step::Poll(key) => self.poll(key),
            Step::PollAgain(_) => self.poll_again(),
            Step::Walk => Ok(self.walk()),
            _ => Ok(self.quiet(step)),
        }
    }

    fn insert(&mut self, key: u64, value: u64) -> Result<Outcome, Fail> {
        let (slip, also) = (self.slip(key), self.slip(value));
        let answer = self
            .cache
            .insert_with_lifecycle(self.rt, slip, also, &mut self.told);
        written(answer, key, value)
    }

    fn try_insert(&mut self, key: u64, value: u64) -> Result<Outcome, Fail> {
        let (slip, also) = (self.slip(key), self.slip(value));
        let answer = self
            .cache
            .try_insert_with_lifecycle(slip, also, &mut self.told);
        match answer {
            Ok(()) => written(Ok(()), key, value),
            Err((back, also, TryError::Refused(refusal))) => {
                written(Err((back, also, refusal)), key, value)
            }
            Err(_) => Err(Fail::new("no other thread has the lock")),
        }
    }

    /// The key of a number.
    pub(crate) fn key(&self, number: u64) -> Result<&'c Slip<'a>, Fail> {
        match self.keys.get(number as usize) {
            Some(key) => Ok(key),
            None => Err(Fail::new("a key is below ten")),
        }
    }

    /// A guard is kept, and this is told.
    pub(crate) fn keep(
        &mut self,
        guard: SlipGuard<'c, 'a, R>,
        told: Outcome,
    ) -> Result<Outcome, Fail> {
        self.guards.push(guard)?;
        Ok(told)
    }

    /// Asks for the value or the guard, and waits for so many milliseconds.
    fn guard(&mut self, key: u64, turns: u64) -> Result<Outcome, Fail> {
        let key = self.key(key)?;
        let limit = Some(Duration::from_millis(turns));
        match self.cache.get_value_or_guard(self.rt, key, limit) {
            GuardResult::Value(value) => Ok(made(&[5, value.number])),
            GuardResult::Guard(guard) => self.keep(guard, made(&[6])),
            GuardResult::Timeout => Ok(made(&[7])),
            GuardResult::Refused(Refusal::Memory) => Ok(Outcome::Refused),
            GuardResult::Refused(_) => Ok(made(&[3])),
        }
    }

    /// Fills the guard that came last. Where that was refused, guard and value come back.
    fn fill(&mut self, value: u64) -> Result<Outcome, Fail> {
        let Some(guard) = self.guards.pop() else {
            return Err(Fail::new("no guard is there"));
        };
        match guard.insert_with_lifecycle(self.slip(value), &mut self.told) {
            Ok(()) => Ok(made(&[8])),
            Err(FillError::Gone(back)) => Ok(made(&[9, back.number])),
            Err(FillError::Memory(guard, back)) => self.unfilled(guard, back.number == value),
        }
    }

    /// A guard comes back, with its value or another one.
    fn unfilled(&mut self, guard: SlipGuard<'c, 'a, R>, is_its_own: bool) -> Result<Outcome, Fail> {
        if !is_its_own {
            return Err(Fail::new("the value did not come back"));
        }
        self.keep(guard, Outcome::Refused)
    }

    fn poll(&mut self, key: u64) -> Result<Outcome, Fail> {
        let key = self.key(key)?;
        self.tasks
            .push(self.cache.get_value_or_guard_async(self.rt, key))?;
        self.poll_again()
    }

    /// Polls the task that came last. It is kept, also where it was refused.
    fn poll_again(&mut self) -> Result<Outcome, Fail> {
        let Some(task) = self.tasks.last_mut() else {
            return Err(Fail::new("no task is there"));
        };
        match self.polls.poll(task) {
            Poll::Pending => Ok(made(&[11])),
            Poll::Ready(Ok(Ok(value))) => Ok(made(&[5, value.number])),
            Poll::Ready(Ok(Err(guard))) => self.keep(guard, made(&[6])),
            Poll::Ready(Err(Refusal::Memory)) => Ok(Outcome::Refused),
            Poll::Ready(Err(_)) => Ok(made(&[3])),
        }
    }

    /// What a walk shows, up to the first clone that is refused.
    fn walk(&self) -> Outcome {
        let mut drawn = Drawn::default();
        let mut walk = self.cache.iter(self.rt);
        for _ in 0..100 {
            match next_shown(&mut walk) {
                Some(Ok(shown)) => drawn.add(&shown),
                Some(Err(_)) => return Outcome::Refused,
                None => break,
            }
        }
        Outcome::Made(drawn)
    }

    /// What a drain takes.
    fn drain(&self) -> Outcome {
        let mut drawn = Drawn::default();
        let mut drain = self.cache.drain(self.rt);
        for _ in 0..100 {
            match drain.next() {
                Some((key, value)) => drawn.add(&[key.number, value.number]),
                None => break,
            }
        }
        Outcome::Made(drawn)
    }

    /// Makes a call that leaves nothing behind.
    fn quiet(&mut self, step: Step) -> Outcome {
        let rt = self.rt;
        match step {
            Step::Get(key) => return seen(self.cache.get(rt, &self.slip(key))),
            Step::Peek(key) => return seen(self.cache.peek(rt, &self.slip(key))),
            Step::TryGet(key) => return tried(self.cache.try_get(&self.slip(key))),
            Step::TryPeek(key) => return tried(self.cache.try_peek(&self.slip(key))),
            Step::Contains(key) => {
                return made(&[21, self.cache.contains_key(rt, &self.slip(key)) as u64]);
            }
            Step::Stats(key) => {
                let stats = self.cache.item_stats(rt, &self.slip(key));
                return made(&[22, stats.map_or(u64::MAX, |stats| stats.access_count)]);
            }
            Step::Reserve(additional) => {
                if self.cache.reserve(rt, additional).is_err() {
                    return Outcome::Refused;
                }
            }
            Step::Replace(key, value) => {
                let answer = self.cache.replace_with_lifecycle(
                    rt,
                    self.slip(key),
                    self.slip(value),
                    false,
                    &mut self.told,
                );
                return made(&[18, answer.is_ok() as u64]);
            }
            Step::Remove(key) => {
                return made(&[19, self.cache.remove(rt, &self.slip(key)).is_some() as u64]);
            }
            Step::Drain => return self.drain(),
            Step::SetCapacity(capacity) => self.cache.set_capacity(rt, capacity),
            Step::Clear => self.cache.clear(rt),
            Step::Retain => {
                let keep = |key: &Slip<'_>, _: &Slip<'_>| key.number % 2 == 0;
                self.cache.retain(rt, keep);
            }
            Step::Abandon => drop(self.guards.pop()),
            Step::DropTask => drop(self.tasks.pop()),
            _ => {}
        }
        made(&[20])
    }
}
