//! The calls of a row that load or act on an entry, by a thread and by a task.
use crate::drawn::Drawn;
use crate::sweeps::shared_rows::Step;
use crate::sweeps::slip::Slip;
use crate::sweeps::stage::{Outcome, SlipGuard, Stage, made};
use futures::Future;
use futures::future::ready;
use futures::task::Poll;
use futures::test::MockTask;
use quick_cache_guard::EntryResult;
use quick_cache_model::Refusal;
use quick_cache_shard::EntryAction;
use std::sync::Wait;
use std::test::Fail;
use std::time::{Clock, Duration};

impl<'c, 'a, R: Wait + Clock> Stage<'c, 'a, R> {
    /// What a loader gives.
    fn given(&self, value: Option<u64>) -> Result<Slip<'a>, ()> {
        match value {
            Some(number) => Ok(self.slip(number)),
            None => Err(()),
        }
    }

    /// What a load tells.
    fn loaded(&self, answer: Result<Result<Slip<'a>, ()>, Refusal>, key: &Slip<'a>) -> Outcome {
        match answer {
            Ok(Ok(value)) => {
                if self.cache.contains_key(self.rt, key) {
                    made(&[10, value.number])
                } else {
                    Outcome::NotKept
                }
            }
            Ok(Err(())) => Outcome::Made(Drawn::default()),
            Err(Refusal::Memory) => Outcome::Refused,
            Err(_) => made(&[3]),
        }
    }

    pub(crate) fn load(&mut self, key: u64, value: Option<u64>) -> Result<Outcome, Fail> {
        let (key, given) = (self.key(key)?, self.given(value));
        let answer = self.cache.get_or_insert_with(self.rt, key, move || given);
        Ok(self.loaded(answer, key))
    }

    pub(crate) fn load_task(&mut self, key: u64, value: u64) -> Result<Outcome, Fail> {
        let (key, given) = (self.key(key)?, self.given(Some(value)));
        let task = self.cache.get_or_insert_async(self.rt, key, ready(given));
        match polled(self.polls, task) {
            Poll::Ready(answer) => Ok(self.loaded(answer, key)),
            Poll::Pending => Ok(made(&[11])),
        }
    }

    /// What an entry call tells. Its guard is kept.
    fn entered(
        &mut self,
        answer: EntryResult<u64, Slip<'a>, Slip<'a>, SlipGuard<'c, 'a, R>>,
    ) -> Result<Outcome, Fail> {
        match answer {
            EntryResult::Retained(number) => Ok(made(&[12, number])),
            EntryResult::Removed(key, value) => Ok(made(&[13, key.number, value.number])),
            EntryResult::Replaced(guard, value) => self.keep(guard, made(&[14, value.number])),
            EntryResult::Vacant(guard) => self.keep(guard, made(&[15])),
            EntryResult::Timeout => Ok(made(&[7])),
            EntryResult::Refused(Refusal::Memory) => Ok(Outcome::Refused),
            EntryResult::Refused(_) => Ok(made(&[3])),
        }
    }

    pub(crate) fn entry(&mut self, key: u64, step: Step) -> Result<Outcome, Fail> {
        let limit = Some(Duration::from_millis(1));
        let key = self.key(key)?;
        let callback = |_: &Slip<'_>, value: &mut Slip<'_>| match step {
            Step::EntryRemove(_) => EntryAction::Remove,
            Step::EntryReplace(_) => EntryAction::ReplaceWithGuard,
            Step::Entry(_, more) => {
                value.number = value.number.saturating_add(more);
                EntryAction::Retain(value.number)
            }
            _ => EntryAction::Retain(value.number),
        };
        let answer = self.cache.entry(self.rt, key, limit, callback);
        self.entered(answer)
    }

    pub(crate) fn entry_task(&mut self, key: u64, more: u64) -> Result<Outcome, Fail> {
        let key = self.key(key)?;
        let callback = |_: &Slip<'_>, value: &mut Slip<'_>| {
            value.number = value.number.saturating_add(more);
            EntryAction::Retain(value.number)
        };
        let task = self.cache.entry_async(self.rt, key, callback);
        match polled(self.polls, task) {
            Poll::Ready(answer) => self.entered(answer),
            Poll::Pending => Ok(made(&[11])),
        }
    }
}

/// Polls a future once, and drops it.
fn polled<F: Future>(polls: &MockTask, mut future: F) -> Poll<F::Output>
    requires { F.can_poll future }
{
    polls.poll(&mut future)
}
