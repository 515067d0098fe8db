//! What pages weigh: the bytes of their titles and texts, and what an entry takes beside them.
use quick_cache_listeners::ByContent;
use quick_cache_unsync::{Cache, Refusal};
use std::alloc::Global;

/// A page of a book.
#[derive(Debug, PartialEq, Eq, Hash, Drop)]
pub struct Page {
    pub title: &'static str,
    pub text: &'static str,
}

/// Pages by their numbers. Each weighs the bytes of its number, title and text, and 80 more.
pub type Pages = Cache<u64, Page, ByContent>;

/// A cache made for a hundred pages, of so many bytes in all.
pub fn pages(alloc: Global, bytes: u64) -> Result<Pages, Refusal> {
    Cache::with_weighter(alloc, 100, bytes, ByContent::with_overhead(80))
}

#[cfg(test)]
mod tests {
    use super::*;
    use test_tools::{expect_eq, expect_ok};

    /// A page of this text.
    fn page(text: &'static str) -> Page {
        Page { title: "one", text }
    }

    #[test]
    fn a_capacity_is_in_the_unit_of_the_weigher(rt: HostRuntime) {
        let mut cache = expect_ok!(rt; pages(rt.alloc(), 4096));
        expect_eq!(rt; (cache.len(), cache.weight(), cache.capacity()), (0, 0, 4096));
        for (number, text, weight) in [(1, "some text", 102), (2, "more", 199)] {
            expect_eq!(rt; cache.put(number, page(text)), Ok(()));
            expect_eq!(rt; cache.weight(), weight);
        }
        expect_eq!(rt; cache.get(&1).map(|page| page.text), Some("some text"));
        expect_eq!(rt; cache.remove(&1), Some((1, page("some text"))));
        expect_eq!(rt; cache.weight(), 97);
    }

    #[test]
    fn a_page_heavier_than_the_hot_target_is_turned_away(rt: HostRuntime) {
        let mut cache = expect_ok!(rt; pages(rt.alloc(), 90));
        expect_eq!(rt; cache.put(1, page("some text")), Ok(()));
        expect_eq!(rt; (cache.len(), cache.weight()), (0, 0));
    }
}
