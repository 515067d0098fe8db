//! A plain model of the loading protocol: what one thread is told of each step.
use crate::schedules::steps::{Step, Told};
use std::alloc::{AllocError, Global};

/// What stands under a key: nothing, an item, or the load of this number.
#[derive(Clone, Copy)]
enum Place {
    Empty,
    Item(u64),
    Loading(usize),
}

/// How far a load has come: its guard is held, or is on its way to a waiter; or it has ended.
#[derive(Clone, Copy)]
enum Stage {
    Held,
    HandedTo(u64),
    Filled(u64),
    GivenUp,
}

/// A future, with the load that it waits for, and the number by which it waits. Who came later has a
/// greater one.
#[derive(Clone, Copy)]
struct Waits {
    key: u64,
    at: Option<(usize, u64)>,
}

/// A future with a loader: whether it waits, the load whose guard it holds, and how often the loader
/// is polled before it gives its value, or fails.
#[derive(Clone, Copy)]
struct Loads {
    waits: Option<Waits>,
    held: Option<(u64, usize)>,
    turns: u64,
    given: Option<u64>,
}

/// The model: what stands under four keys, the stages of all loads that ever began, the guards, each
/// with its key and its load, the futures that ask, and one each that acts on an entry and that loads.
#[derive(Drop)]
pub struct Plain {
    places: [Place; 4],
    loads: Vec<Stage>,
    guards: Vec<(u64, usize)>,
    futures: Vec<Waits>,
    acts: Option<Waits>,
    loader: Loads,
    waiters: u64,
}

impl Plain {
    /// Four absent keys.
    pub fn new(alloc: Global) -> Self {
        Plain {
            places: [Place::Empty; 4],
            loads: Vec::new(alloc),
            guards: Vec::new(alloc),
            futures: Vec::new(alloc),
            acts: None,
            loader: Loads {
                waits: None,
                held: None,
                turns: 0,
                given: None,
            },
            waiters: 0,
        }
    }

    /// A future that acts on an entry comes, and one that loads, with a loader that is polled so
    /// often before it gives this.
    pub fn come_two(&mut self, acts: u64, loads: u64, turns: u64, given: Option<u64>) {
        self.acts = Some(Waits {
            key: acts,
            at: None,
        });
        self.loader = Loads {
            waits: Some(Waits {
                key: loads,
                at: None,
            }),
            held: None,
            turns,
            given,
        };
    }

    /// These two are dropped, in this order.
    pub fn drop_two(&mut self) {
        if let Some(waits) = self.acts.take() {
            self.leave(waits);
        }
        if let Some(waits) = self.loader.waits.take() {
            self.leave(waits);
        }
        if let Some((key, load)) = self.loader.held.take() {
            self.pass_on(key, load);
        }
    }

    /// Makes a step.
    pub fn step(&mut self, step: Step) -> Result<Told, AllocError> {
        match step {
            Step::Insert(key, value) => Ok(self.put(key, Place::Item(value))),
            Step::Replace(key, value) => match self.get(key) {
                Told::Value(_) => Ok(self.put(key, Place::Item(value))),
                _ => Ok(Told::Nothing),
            },
            Step::Get(key) => Ok(self.get(key)),
            Step::Remove(key) => {
                let found = self.get(key);
                self.put(key, Place::Empty);
                Ok(found)
            }
            Step::Clear => {
                self.places = [Place::Empty; 4];
                Ok(Told::Done)
            }
            Step::Count => Ok(self.count()),
            Step::Ask(key) => self.ask(key),
            Step::Act(key, _) => self.act(key),
            Step::Fill(at, value) => Ok(self.fill(at, value)),
            Step::LetGo(at) => Ok(self.let_go(at)),
            Step::Begin(key) => self.wait(key, None),
            Step::Poll(at) => self.poll(at),
            Step::Cancel(at) => Ok(self.cancel(at)),
            Step::PollActs => self.poll_acts(),
            Step::PollLoads => self.poll_loads(),
        }
    }

    fn place(&self, key: u64) -> Place {
        self.places[(key % 4) as usize]
    }

    fn put(&mut self, key: u64, place: Place) -> Told {
        self.places[(key % 4) as usize] = place;
        Told::Done
    }

    /// Whether a load stands under the key.
    fn stands(&self, key: u64, load: usize) -> bool {
        match self.place(key) {
            Place::Loading(there) => there == load,
            _ => false,
        }
    }

    fn get(&self, key: u64) -> Told {
        match self.place(key) {
            Place::Item(value) => Told::Value(value),
            _ => Told::Nothing,
        }
    }

    fn count(&self) -> Told {
        let mut items = 0usize;
        for key in 0..4 {
            if let Place::Item(_) = self.place(key) {
                items = items.saturating_add(1);
            }
        }
        Told::Count(items)
    }

    /// A load begins, and its guard is held.
    fn begin(&mut self, key: u64) -> Result<usize, AllocError> {
        let load = self.loads.len();
        self.loads.push(Stage::Held)?;
        self.put(key, Place::Loading(load));
        Ok(load)
    }

    fn stage(&self, load: usize) -> Stage {
        match self.loads.get(load) {
            Some(stage) => *stage,
            None => Stage::GivenUp,
        }
    }

    fn set_stage(&mut self, load: usize, stage: Stage) {
        if load < self.loads.len() {
            self.loads[load] = stage;
        }
    }

    /// A value, or the guard of a load that begins.
    fn ask(&mut self, key: u64) -> Result<Told, AllocError> {
        match self.place(key) {
            Place::Item(value) => Ok(Told::Value(value)),
            Place::Loading(_) => Ok(Told::Timeout),
            Place::Empty => {
                let load = self.begin(key)?;
                self.guards.push((key, load))?;
                Ok(Told::Guard)
            }
        }
    }

    /// An item is written, goes, or leaves a guard, by its value.
    fn act(&mut self, key: u64) -> Result<Told, AllocError> {
        let Place::Item(value) = self.place(key) else {
            return self.ask(key);
        };
        match value % 3 {
            0 => {
                self.put(key, Place::Item(value.wrapping_add(1)));
                Ok(Told::Retained(value))
            }
            1 => {
                self.put(key, Place::Empty);
                Ok(Told::Removed(value))
            }
            _ => {
                let load = self.begin(key)?;
                self.guards.push((key, load))?;
                Ok(Told::Replaced(value))
            }
        }
    }

    fn fill(&mut self, at: usize, value: u64) -> Told {
        if at >= self.guards.len() {
            return Told::Nothing;
        }
        let (key, load) = self.guards.swap_remove(at);
        self.end(key, load, value)
    }

    /// A load ends with a value, which comes under the key if the load still stands there.
    fn end(&mut self, key: u64, load: usize, value: u64) -> Told {
        self.set_stage(load, Stage::Filled(value));
        if self.stands(key, load) {
            self.put(key, Place::Item(value))
        } else {
            Told::Gone(value)
        }
    }

    fn let_go(&mut self, at: usize) -> Told {
        if at >= self.guards.len() {
            return Told::Nothing;
        }
        let (key, load) = self.guards.swap_remove(at);
        self.pass_on(key, load)
    }

    /// The guard goes to the one who came last of those who wait for the load. With none the load is
    /// given up.
    fn pass_on(&mut self, key: u64, load: usize) -> Told {
        if let Some(waiter) = self.last_waiter(load) {
            self.set_stage(load, Stage::HandedTo(waiter));
            return Told::Done;
        }
        self.set_stage(load, Stage::GivenUp);
        if self.stands(key, load) {
            self.put(key, Place::Empty);
        }
        Told::Done
    }

    fn last_waiter(&self, load: usize) -> Option<u64> {
        let mut last = waits_for(self.acts, load).max(waits_for(self.loader.waits, load));
        for waits in &self.futures {
            last = last.max(waits_for(Some(*waits), load));
        }
        last
    }

    /// A future comes or goes on waiting, where there are not too many.
    fn wait(&mut self, key: u64, at: Option<(usize, u64)>) -> Result<Told, AllocError> {
        if self.futures.len() >= 8 {
            return Ok(Told::Nothing);
        }
        self.futures.push(Waits { key, at })?;
        match at {
            Some(_) => Ok(Told::Pending),
            None => Ok(Told::Done),
        }
    }

    fn poll(&mut self, at: usize) -> Result<Told, AllocError> {
        if at >= self.futures.len() {
            return Ok(Told::Nothing);
        }
        let waits = self.futures.swap_remove(at);
        match self.come(waits)? {
            Came::Value(value) => Ok(Told::Value(value)),
            Came::Guard(load) => self.hold(waits.key, load),
            Came::Waits(at) => self.wait(waits.key, Some(at)),
        }
    }

    /// A guard is held.
    fn hold(&mut self, key: u64, load: usize) -> Result<Told, AllocError> {
        self.guards.push((key, load))?;
        Ok(Told::Guard)
    }

    /// What comes to a future that waits, or that looks for the first time.
    fn come(&mut self, waits: Waits) -> Result<Came, AllocError> {
        let Some((load, waiter)) = waits.at else {
            return self.look(waits.key);
        };
        match self.stage(load) {
            Stage::Filled(value) => Ok(Came::Value(value)),
            Stage::HandedTo(number) if number == waiter => {
                self.set_stage(load, Stage::Held);
                Ok(Came::Guard(load))
            }
            _ => Ok(Came::Waits((load, waiter))),
        }
    }

    /// What comes to one who looks: a value, the guard of a load that begins, or a wait for another's
    /// load.
    fn look(&mut self, key: u64) -> Result<Came, AllocError> {
        match self.place(key) {
            Place::Item(value) => Ok(Came::Value(value)),
            Place::Empty => Ok(Came::Guard(self.begin(key)?)),
            Place::Loading(load) => {
                self.waiters = self.waiters.wrapping_add(1);
                Ok(Came::Waits((load, self.waiters)))
            }
        }
    }

    /// The future that acts on an entry is polled. A value that came for it is acted on where it
    /// stands then.
    fn poll_acts(&mut self) -> Result<Told, AllocError> {
        let Some(mut waits) = self.acts.take() else {
            return Ok(Told::Refused);
        };
        if waits.at.is_some() {
            match self.come(waits)? {
                Came::Value(_) => waits.at = None,
                Came::Guard(load) => return self.hold(waits.key, load),
                Came::Waits(_) => {}
            }
        }
        if waits.at.is_none() {
            match self.place(waits.key) {
                Place::Loading(load) => {
                    self.waiters = self.waiters.wrapping_add(1);
                    waits.at = Some((load, self.waiters));
                }
                _ => return self.act(waits.key),
            }
        }
        self.acts = Some(waits);
        Ok(Told::Pending)
    }

    /// The future that loads is polled.
    fn poll_loads(&mut self) -> Result<Told, AllocError> {
        if let Some((key, load)) = self.loader.held.take() {
            return Ok(self.load(key, load));
        }
        let Some(Waits { key, at }) = self.loader.waits.take() else {
            return Ok(Told::Refused);
        };
        match self.come(Waits { key, at })? {
            Came::Value(value) => Ok(Told::Value(value)),
            Came::Guard(load) => Ok(self.load(key, load)),
            Came::Waits(at) => {
                self.loader.waits = Some(Waits { key, at: Some(at) });
                Ok(Told::Pending)
            }
        }
    }

    /// Its loader is polled, and then the load ends or is passed on.
    fn load(&mut self, key: u64, load: usize) -> Told {
        if self.loader.turns > 0 {
            self.loader.turns -= 1;
            self.loader.held = Some((key, load));
            return Told::Pending;
        }
        match self.loader.given {
            Some(value) => {
                self.end(key, load, value);
                Told::Value(value)
            }
            None => {
                self.pass_on(key, load);
                Told::Failed
            }
        }
    }

    fn cancel(&mut self, at: usize) -> Told {
        if at >= self.futures.len() {
            return Told::Nothing;
        }
        let waits = self.futures.swap_remove(at);
        self.leave(waits)
    }

    /// A future waits no more. A guard that was on its way to it goes on.
    fn leave(&mut self, waits: Waits) -> Told {
        if let Some((load, waiter)) = waits.at {
            if let Stage::HandedTo(number) = self.stage(load) {
                if number == waiter {
                    return self.pass_on(waits.key, load);
                }
            }
        }
        Told::Done
    }
}

/// What comes to a future: a value, the guard of a load, or the load that it waits for.
enum Came {
    Value(u64),
    Guard(usize),
    Waits((usize, u64)),
}

/// The number by which one waits for this load, if it does.
fn waits_for(waits: Option<Waits>, load: usize) -> Option<u64> {
    match waits?.at {
        Some((at, waiter)) if at == load => Some(waiter),
        _ => None,
    }
}
