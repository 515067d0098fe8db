//! Keeps pages by the length of their texts, and prints those that leave.
#![tactic(auto)]

use quick_cache_listeners::{ByLength, Collect, Collected, OnLeave};
use quick_cache_unsync::{Cache, DefaultHashBuilder};
use std::io;

fn main(rt: HostRuntime) -> io::Result<()> {
    let (builder, lifecycle) = (DefaultHashBuilder::new(), OnLeave(Collect));
    let Ok(mut pages) = Cache::with(rt.alloc(), 100, 30, ByLength, builder, lifecycle) else {
        return println!(rt; "no memory");
    };
    for (number, text) in [(1, "first page"), (2, "second page"), (3, "third page")] {
        let text = String::from_str(rt.alloc(), text)?;
        let mut left = Collected::with(Vec::new(rt.alloc()));
        let put = pages.insert_with_lifecycle(number, text, &mut left);
        if put.is_err() {
            println!(rt; "no memory for page {number}")?;
        }
        left.each(|number, text| {
            let _ = println!(rt; "page {number} leaves: {text}");
        });
    }
    println!(rt; "{} bytes stay", pages.weight())
}
