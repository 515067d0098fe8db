//! A key that is a pair, and a query of its two borrowed halves.
ghost use Rattle.std.specs.Prelude.{◌≡◌, ◌&&◌, ◌==◌, nat_eq, string_bytes};
ghost use Rattle.std.specs.Cmp.Lexicographic.{pointwise};
ghost use Rattle.std.proofs.Common.{rules};
ghost use Rattle.std.specs.Cmp.Rules.{comparing, hashing};

use quick_cache_base::Equivalent;

/// A pair of keys.
#[derive(PartialEq, Eq, Hash, Drop)]
pub struct Shape {
    pub name: String,
    pub year: u64,
}

/// Its two halves, borrowed.
#[derive(PartialEq, Eq, Hash, Drop)]
pub struct Halves<'a> {
    pub name: &'a str,
    pub year: u64,
}

impl<'a> Equivalent<Shape> for Halves<'a> {
    ghost equivalent = { λ halves shape. pointwise nat_eq halves.name.now (string_bytes shape.name) && (halves.year == shape.year) };

    ghost same_hash = { Prim.search (hashing, rules) };

    ghost same_key = { Prim.search (comparing, rules) };

    fn equivalent(&self, key: &Shape) -> bool {
        self.name == key.name.as_str() && self.year == key.year
    }
}
