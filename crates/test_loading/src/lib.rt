//! Tests of keys that are loaded in the shared cache: its calls that load, by threads; its futures, by
//! tasks of the executors of `futures` and of `tokio` and of a test that polls them; and schedules:
//! rows, random ones against a plain model of the loading protocol, whole lists of events of the
//! loading core, and four threads with calls of all kinds.
#![tactic(auto)]

#[cfg(test)]
mod begun;
#[cfg(test)]
mod beside_others;
#[cfg(test)]
mod by_tasks;
#[cfg(test)]
mod by_threads;
#[cfg(test)]
mod schedules;
