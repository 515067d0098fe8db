//! Tests of what ends. Of caches whose entries end: rows of moments, a storm of threads, and passes, a
//! caller that knows of each value what its lifecycle says. Of a loader with its cache: rows, and three
//! uses of it: tokens that are signed anew, a resolver, and a loader whose source is its graph. Of
//! both with a clock of their own: rows. Of all three: what each answers to the same request.
#![tactic(auto)]

#[cfg(test)]
mod expiring;
#[cfg(test)]
mod loader;
#[cfg(test)]
mod matrix;
#[cfg(test)]
mod timed;
#[cfg(test)]
mod uses;
