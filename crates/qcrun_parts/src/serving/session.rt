//! The cache that stands, and what commands do to it.
ghost use Rattle.std.specs.Prelude.{◌≡◌, None, option_copied};
ghost use Rattle.quick_cache_shard.specs.Steps.{rules_in};
ghost use Rattle.quick_cache_unsync.specs.Touches.{no_touches};
ghost use Rattle.qcrun_parts.specs.Sessions.{MakesCache, ServesCommand, ShowsCache};

use crate::calls::make_call;
use crate::command::Command;
use crate::events::Events;
use crate::numbers::NumberCache;
use crate::numbers::hash::RemainderBuilder;
use crate::numbers::kinds::{ByKind, LastDigits};
use crate::numbers::still::still;
use crate::reply::Answer;
use crate::serving::options::options_of;
use quick_cache_model::Refusal;
use quick_cache_options::options::OptionsBuilder;
use quick_cache_shard::Ruled;
use quick_cache_unsync::Cache;
use std::alloc::Allocator;

/// What became of a command.
#[derive(Drop)]
pub enum Outcome<A: Allocator> {
    /// It was served, with these events, and this is its answer.
    Answered(Events<A>, Answer),
    /// The cache is to be shown, and these are its items of weight 0, by key.
    Shows(Vec<(u64, u64), A>),
    /// It asked for a cache, and none stands.
    NoCache,
}

/// Finds what is to be shown of a cache beside its rings and numbers.
fn look<A: Allocator + Copy>(alloc: A, cache: &NumberCache<A>) -> Outcome<A>
    ensures shows { ShowsCache cache.now.state result }
{
    match still(alloc, cache) {
        Ok(still) => Outcome::Shows(still),
        Err(_) => Outcome::Answered(Some(Vec::new(alloc)), Answer::Refused(Refusal::Memory)),
    }
}

/// The cache that stands, if one was made.
#[derive(Drop)]
pub struct Session<A: Allocator> {
    alloc: A,
    cache: Option<NumberCache<A>>,
}

impl<A: Allocator + Copy> Session<A> {
    /// A session in which no cache stands.
    pub fn new(alloc: A) -> Self
        ensures { result ≡ record { alloc = alloc; cache = None } }
    {
        Session { alloc, cache: None }
    }

    /// Serves a command. It prints nothing.
    pub fn serve(&mut self, command: Command) -> Outcome<A>
        ensures { ServesCommand
            (rules_in ⟦<NumberCache<A> as Ruled>⟧.goes no_touches)
            self.old.cache command result self.new.cache }
    {
        let mut events = Some(Vec::new(self.alloc));
        if let Some(options) = options_of(command) {
            return Outcome::Answered(events, self.make_cache(&options));
        }
        let Some(cache) = &mut self.cache else {
            return Outcome::NoCache;
        };
        if let Command::Show = command {
            return look(self.alloc, cache);
        }
        let reply = make_call(cache, command, &mut events);
        Outcome::Answered(events, Answer::from(reply))
    }

    /// The cache that stands.
    pub fn cache(&self) -> Option<&NumberCache<A>>
        ensures { option_copied result ≡ self.now.cache }
    {
        self.cache.as_ref()
    }

    /// Puts an empty cache of these options in the place of the one that stood, which stays where
    /// there is no memory. Where the options have a fault, none stands.
    fn make_cache(&mut self, options: &OptionsBuilder) -> Answer
        ensures makes { MakesCache options.now self.old.cache result self.new.cache }
    {
        let options = match options.build() {
            Ok(options) => options,
            Err(error) => {
                self.cache = None;
                return Answer::Fault(error);
            }
        };
        let made = Cache::with_options(
            self.alloc,
            options,
            LastDigits,
            RemainderBuilder,
            ByKind::new(),
        );
        match made {
            Ok(cache) => {
                self.cache = Some(cache);
                Answer::Done
            }
            Err(refusal) => Answer::Refused(refusal),
        }
    }
}
