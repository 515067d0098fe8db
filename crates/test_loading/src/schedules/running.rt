//! The same steps on a running cache, whose futures are polled by hand.
use crate::schedules::later::Polled;
use crate::schedules::steps::{Step, Told};
use futures::task::Poll;
use futures::test::MockTask;
use quick_cache_guard::tasks::ValueOrGuard;
use quick_cache_guard::{EntryResult, FillError, GuardResult, PlaceholderGuard};
use quick_cache_locked::LockedShard;
use quick_cache_model::{DefaultHashBuilder, Refusal, UnitWeighter};
use quick_cache_shard::EntryAction;
use quick_cache_sync::{Cache, DefaultLifecycle};
use std::alloc::AllocGlobal;
use std::io;
use std::random::RandomSource;
use std::sync::Wait;
use std::time::{Clock, Duration};

/// A cache of numbers.
pub type Numbers = Cache<u64, u64>;

type Dropping = DefaultLifecycle<u64, u64>;

type Shard = LockedShard<u64, u64, UnitWeighter, DefaultHashBuilder, Dropping>;

pub type Guard<'a, R> = PlaceholderGuard<'a, u64, u64, Dropping, Shard, R>;

pub type Asking<'a, R> = ValueOrGuard<'a, 'a, u64, u64, u64, Dropping, Shard, R>;

/// A future with its task.
#[derive(Drop)]
struct Task<'a, R: Wait> {
    polled: Polled,
    future: Asking<'a, R>,
}

/// What a future gives that asks for a key.
type Answer<'a, R> = Result<Result<u64, Guard<'a, R>>, Refusal>;

impl<'a, R: Wait> Task<'a, R> {
    /// Polls the future, and tells also whether it was asleep.
    fn poll(&mut self) -> (bool, Poll<Answer<'a, R>>) {
        let is_asleep = self.polled.is_asleep();
        let answer = self.polled.task.poll(&mut self.future);
        self.polled.was_pending = answer.is_pending();
        (is_asleep, answer)
    }
}

/// A cache with the guards and the futures of a schedule.
#[derive(Drop)]
pub struct Running<'a, R: Wait> {
    pub rt: &'a R,
    pub cache: &'a Numbers,
    keys: &'a [u64; 4],
    guards: Vec<Guard<'a, R>>,
    tasks: Vec<Task<'a, R>>,
}

impl<'a, R: Wait + Clock + RandomSource + AllocGlobal> Running<'a, R> {
    /// No guard is held, and nothing waits.
    pub fn new(rt: &'a R, cache: &'a Numbers, keys: &'a [u64; 4]) -> Self {
        Running {
            rt,
            cache,
            keys,
            guards: Vec::new(rt.alloc()),
            tasks: Vec::new(rt.alloc()),
        }
    }

    /// The key of a number.
    pub fn key(&self, number: u64) -> &'a u64 {
        let keys = self.keys;
        &keys[(number % 4) as usize]
    }

    /// Makes a step. One for which there is no memory is told that it was refused.
    pub fn step(&mut self, step: Step) -> Told {
        match step {
            Step::Ask(key) => self.ask(key),
            Step::Act(key, millis) => self.act(key, millis),
            Step::Fill(at, value) => self.fill(at, value),
            Step::LetGo(at) => self.let_go(at),
            Step::Begin(key) => self.begin(key),
            Step::Poll(at) => self.poll(at),
            Step::Cancel(at) => self.cancel(at),
            _ => self.call(step),
        }
    }

    /// A call that neither loads nor waits.
    fn call(&self, step: Step) -> Told {
        let (rt, cache) = (self.rt, self.cache);
        match step {
            Step::Get(key) => found(cache.get(rt, &key)),
            Step::Remove(key) => match cache.remove(rt, &key) {
                Some((_, value)) => Told::Value(value),
                None => Told::Nothing,
            },
            Step::Replace(key, value) => done_if(cache.replace(rt, key, value, false).is_ok()),
            Step::Insert(key, value) => done_if(cache.insert(rt, key, value).is_ok()),
            Step::Clear => {
                cache.clear(rt);
                Told::Done
            }
            _ => Told::Count(cache.len(rt)),
        }
    }

    /// Holds a guard, and is told this.
    fn hold(&mut self, guard: Guard<'a, R>, told: Told) -> Told {
        match self.guards.push(guard) {
            Ok(()) => told,
            Err(_) => Told::Refused,
        }
    }

    fn ask(&mut self, key: u64) -> Told {
        let limit = Some(Duration::from_millis(0));
        match self.cache.get_value_or_guard(self.rt, &key, limit) {
            GuardResult::Value(value) => Told::Value(value),
            GuardResult::Guard(guard) => self.hold(guard, Told::Guard),
            GuardResult::Timeout => Told::Timeout,
            GuardResult::Refused(_) => Told::Refused,
        }
    }

    fn act(&mut self, key: u64, millis: u64) -> Told {
        let limit = Some(Duration::from_millis(millis));
        let callback = |_: &u64, value: &mut u64| chosen(value);
        let answer = self.cache.entry(self.rt, &key, limit, callback);
        self.acted(answer)
    }

    /// What an entry call tells. Its guard is held.
    pub fn acted(&mut self, answer: EntryResult<u64, u64, u64, Guard<'a, R>>) -> Told {
        match answer {
            EntryResult::Retained(value) => Told::Retained(value),
            EntryResult::Removed(_, value) => Told::Removed(value),
            EntryResult::Replaced(guard, value) => self.hold(guard, Told::Replaced(value)),
            EntryResult::Vacant(guard) => self.hold(guard, Told::Guard),
            EntryResult::Timeout => Told::Timeout,
            EntryResult::Refused(_) => Told::Refused,
        }
    }

    fn fill(&mut self, at: usize, value: u64) -> Told {
        if at >= self.guards.len() {
            return Told::Nothing;
        }
        match self.guards.swap_remove(at).insert(value) {
            Ok(()) => Told::Done,
            Err(FillError::Gone(value)) => Told::Gone(value),
            Err(FillError::Memory(_, _)) => Told::Refused,
        }
    }

    fn let_go(&mut self, at: usize) -> Told {
        if at >= self.guards.len() {
            return Told::Nothing;
        }
        drop(self.guards.swap_remove(at));
        Told::Done
    }

    /// A future that has not been polled, where there are not too many.
    fn begin(&mut self, key: u64) -> Told {
        if self.tasks.len() >= 8 {
            return Told::Nothing;
        }
        let Ok(polled) = self.unpolled() else {
            return Told::Refused;
        };
        let future = self.cache.get_value_or_guard_async(self.rt, self.key(key));
        self.wait(Task { polled, future }, Told::Done)
    }

    /// Keeps a task, and is told this.
    fn wait(&mut self, task: Task<'a, R>, told: Told) -> Told {
        match self.tasks.push(task) {
            Ok(()) => told,
            Err(_) => Told::Refused,
        }
    }

    /// A task whose future has not been polled.
    pub fn unpolled(&self) -> io::Result<Polled> {
        Ok(Polled {
            task: MockTask::new(self.rt)?,
            was_pending: false,
        })
    }

    /// Polls a future. One that waited and has something to say was woken.
    fn poll(&mut self, at: usize) -> Told {
        if at >= self.tasks.len() {
            return Told::Nothing;
        }
        let mut task = self.tasks.swap_remove(at);
        let (is_asleep, answer) = task.poll();
        match answer {
            Poll::Ready(answer) => unless(is_asleep, self.came(answer)),
            Poll::Pending => self.wait(task, Told::Pending),
        }
    }

    /// What came to a future. Its guard is held.
    fn came(&mut self, answer: Answer<'a, R>) -> Told {
        match answer {
            Ok(Ok(value)) => Told::Value(value),
            Ok(Err(guard)) => self.hold(guard, Told::Guard),
            Err(_) => Told::Refused,
        }
    }

    fn cancel(&mut self, at: usize) -> Told {
        if at >= self.tasks.len() {
            return Told::Nothing;
        }
        drop(self.tasks.swap_remove(at));
        Told::Done
    }
}

/// What was told, unless it came to a task that nobody woke.
pub fn unless(is_asleep: bool, told: Told) -> Told {
    if is_asleep { Told::Unwoken } else { told }
}

/// What a look-up found.
fn found(answer: Result<Option<u64>, Refusal>) -> Told {
    match answer {
        Ok(Some(value)) => Told::Value(value),
        Ok(None) => Told::Nothing,
        Err(_) => Told::Refused,
    }
}

fn done_if(is_done: bool) -> Told {
    if is_done { Told::Done } else { Told::Nothing }
}

/// What the callback of an entry call chooses: to write the value and keep it, to let it go, or to
/// leave a guard.
pub fn chosen(value: &mut u64) -> EntryAction<u64> {
    let found = *value;
    match found % 3 {
        0 => {
            *value = found.wrapping_add(1);
            EntryAction::Retain(found)
        }
        1 => EntryAction::Remove,
        _ => EntryAction::ReplaceWithGuard,
    }
}
