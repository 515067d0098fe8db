//! Tests of the futures of the shared cache: rows by the executors of `futures` and of `tokio`, and
//! by tasks of a test that polls them.

mod entries;
mod rows;
mod runtime;
mod standing;
mod tasks;
mod wakers;
