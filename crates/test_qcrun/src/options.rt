//! What is printed for a cache with shares, and what stands behind it.
use crate::scripts::{check_all, check_bad};
use std::fmt::Write;
use std::process::Abort;

#[test]
fn the_first_fault_is_told(rt: HostRuntime) {
    let (hot, ghosts, mark) = (
        "options: hot_allocation is out of range\n",
        "options: ghost_allocation is out of range\n",
        "options: mark_cut is out of range\n",
    );
    let scripts: [(&str, &str); 8] = [
        ("cache 1 1 1000001 0\n", hot),
        ("cache 1 1 0 1000001\n", ghosts),
        ("cache 1 1 1000001 1000001\n", hot),
        ("cache 1 1 4294967295 0\n", hot),
        ("cache 1 1 0 4294967295\n", ghosts),
        ("cache 1 1 0 1000001 4\n", ghosts),
        ("cache 1 1 0 0 0\n", mark),
        ("cache 1 1 0 0 255\n", mark),
    ];
    check_all(&rt, rt.alloc(), &scripts);
}

#[test]
fn shares_go_from_nothing_to_the_whole(rt: HostRuntime) {
    let scripts: [(&str, &str); 4] = [
        (
            "cache 100 100 1000000 1000000\nshow\ncache 100 100 0 0\nshow\n\
             cache 100 1000 999999 1\nshow\n",
            "ok\nhot\ncold\nghosts\nstill\ncount 0 0 100 100\n\
             ok\nhot\ncold\nghosts\nstill\ncount 0 0 1 0\n\
             ok\nhot\ncold\nghosts\nstill\ncount 0 0 999 0\n",
        ),
        (
            "cache 0 0 1000000 1000000\nshow\n",
            "ok\nhot\ncold\nghosts\nstill\ncount 0 0 0 0\n",
        ),
        (
            "cache 2 2 1000000 0\ninsert 1 1\ninsert 2 1\ninsert 3 1\nshow\n",
            "ok\nok\nok\nbefore 1 1\nhot 1 1\nok\n\
             hot 2:1:0\ncold 3:1:0\nghosts\nstill\ncount 2 2 2 0\n",
        ),
        (
            "cache 4 4 00000000000000500000 1000000\ninsert 1 1\ninsert 2 1\ninsert 3 1\n\
             insert 4 1\ninsert 5 1\ninsert 6 1\nget 1\nshow\n",
            "ok\nok\nok\nok\nok\nbefore 3 1\ncold 3 1\nok\nbefore 4 1\ncold 4 1\nok\nsome 1\n\
             hot 1:1:1 2:1:0\ncold 5:1:0 6:1:0\nghosts 3 4\nstill\ncount 4 4 2 4\n",
        ),
    ];
    check_all(&rt, rt.alloc(), &scripts);
}

#[test]
fn what_stands_behind_a_cache_line(rt: HostRuntime) {
    let scripts: [(&str, &str); 2] = [
        (
            "cache 5 5\ninsert 1 1\ncache 6 6 500000 500000\nshow\n",
            "ok\nok\nok\nhot\ncold\nghosts\nstill\ncount 0 0 3 3\n",
        ),
        (
            "cache 5 5\ninsert 1 1\ncache 5 5 1000001 0\ncache 5 5 1 1\nget 1\nhits\n",
            "ok\nok\noptions: hot_allocation is out of range\nok\nnone\nhits 0 misses 1\n",
        ),
    ];
    check_all(&rt, rt.alloc(), &scripts);
    check_bad(
        &rt,
        rt.alloc(),
        b"cache 5 5 0 0\ninsert 1 1\ncache 5 5 0 1000001\n\nget 1\n",
        "ok\nok\noptions: ghost_allocation is out of range\nbad line 5\n",
        "line 5: no cache stands\n",
    );
}

#[test]
fn a_share_above_the_greatest_is_bad(rt: HostRuntime) {
    let scripts: [(&[u8], &str, &str); 5] = [
        (b"cache 1 1 4294967296 0", "bad line 1\n", "line 1: "),
        (b"cache 1 1 1000001 0 256", "bad line 1\n", "line 1: "),
        (b"cache 1 1 0 4294967296", "bad line 1\n", "line 1: "),
        (b"cache 5 5 1000001 4294967296", "bad line 1\n", "line 1: "),
        (
            b"cache 5 5 1000001 0\ncache 5 5 0 18446744073709551615",
            "options: hot_allocation is out of range\nbad line 2\n",
            "line 2: ",
        ),
    ];
    for (script, wanted, line) in scripts {
        let mut reason = String::new(rt.alloc());
        let form = "cache ITEMS WEIGHT [HOT GHOST [MARK]]";
        assert!(rt; writeln!(reason, "{line}it is written `{form}`").is_ok());
        check_bad(&rt, rt.alloc(), script, wanted, &reason);
    }
}
