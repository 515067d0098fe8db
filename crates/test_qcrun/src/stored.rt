//! A stored script prints what it printed when it was stored, however the cache is built inside.
mod replies;
mod script;

use crate::scripts::check;
use crate::stored::replies::REPLIES;
use crate::stored::script::SCRIPT;
use qcrun_parts::{Session, command_of};
use quick_cache_unsync::Stats;
use test_tools::expect_eq;

#[test]
fn a_stored_script_prints_its_stored_replies(rt: HostRuntime) {
    check(&rt, rt.alloc(), SCRIPT.as_bytes(), REPLIES);
}

#[test]
fn a_cache_counts_what_the_stored_script_did(rt: HostRuntime) {
    let mut session = Session::new(rt.alloc());
    for line in SCRIPT.lines() {
        if let Ok(command) = command_of(line.as_bytes()) {
            session.serve(command);
        }
    }
    // As the first line asks, and the last two replies tell.
    let counted = Stats {
        entries: 6,
        weight: 11,
        capacity: 40,
        hits: 322,
        misses: 266,
        ..Stats::default()
    };
    let stats = match session.cache() {
        Some(cache) => cache.stats(),
        None => Stats::default(),
    };
    expect_eq!(rt; stats, counted);
}
