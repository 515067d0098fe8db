//! A plain function as the loader, whose source is its graph.
ghost use Rattle.std.specs.Prelude.{◌≡◌, ◌<◌, ◌+◌, IfOk};

use read_through::{ReadThrough, Refusal, Source};
use std::alloc::Global;
use std::sync::Wait;
use std::time::Clock;
use test_tools::expect_eq;

/// A key with a moment.
type Stamp = (u64, u64);

/// Gives a key with the moment at which it was asked for.
struct Stamps;

impl Source<u64, Stamp> for Stamps {
    ghost gives = { λ key moment stamp. (stamp.0 ≡ key) × (stamp.1 ≡ moment) };
}

/// The loader.
fn stamp(key: &u64, now: u64) -> Stamp
    ensures key { result.0 ≡ key.now }
    ensures moment { result.1 ≡ now }
{
    (*key, now)
}

/// With a life of 0 each answer is of this very moment.
fn stamp_of_now<R: Wait + Clock>(
    rt: &R,
    alloc: Global,
    key: u64,
    now: u64,
) -> Result<Stamp, Refusal>
    ensures key { IfOk result (λ stamp. stamp.0 ≡ key) }
    ensures moment { IfOk result (λ stamp. stamp.1 ≡ now) }
{
    let stamps: ReadThrough<u64, Stamp, _, Stamps> = ReadThrough::new(alloc, 8, 0, stamp)?;
    stamps.get(rt, &key, now)
}

/// With a life of 10 it is of less than 10 before, whatever came between.
fn stamp_of_late<R: Wait + Clock>(
    rt: &R,
    alloc: Global,
    key: u64,
    now: u64,
) -> Result<Stamp, Refusal>
    ensures key { IfOk result (λ stamp. stamp.0 ≡ key) }
    ensures moment { IfOk result (λ stamp. now < stamp.1 + 10) }
{
    let stamps: ReadThrough<u64, Stamp, _, Stamps> = ReadThrough::new(alloc, 8, 10, stamp)?;
    stamps.get(rt, &key, now / 2)?;
    stamps.get(rt, &key, now)
}

#[cfg(test)]
mod tests {
    use super::*;

    #[test]
    fn a_plain_function_is_a_loader(rt: HostRuntime) {
        expect_eq!(rt; stamp_of_now(&rt, rt.alloc(), 1, 5), Ok((1, 5)));
        expect_eq!(rt; stamp_of_late(&rt, rt.alloc(), 1, 16), Ok((1, 8)));
    }
}
