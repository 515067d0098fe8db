//! The iterators of a `LinkedSlab`. Each goes by ascending token.
ghost use Rattle.std.specs.Prelude.{◌≡◌, ◌+◌, length};
ghost use Rattle.std.specs.Int.NonZero.{non_zero_u32_get as number};
ghost use Rattle.std.specs.Iterator.{YieldsFirst, YieldsFirstBy, item_count};

use crate::linked_slab::node::Node;
use crate::linked_slab::past;
use quick_cache_model::Token;
use std::alloc::{Allocator, Global};
use std::iter::FusedIterator;
use std::marker::Model;

/// The items of a slab, seen as the list of those that are left.
#[derive(Drop)]
pub struct Iter<'a, T> {
    pub(super) nodes: &'a [Node<T>],
}

impl<'a, T> Model for Iter<'a, T> {
    ghost use Rattle.std.specs.Prelude.{List, filter_map, map};

    ghost Value = { List T };

    ghost use Rattle.quick_cache_containers.specs.Nodes.{item_of};

    ghost view = { λ it. filter_map (λ slot. slot) (map item_of it.nodes.now) };
}

impl<'a, T> Iterator for Iter<'a, T> {
    type Item = &'a T;

    ghost next_gives = { YieldsFirstBy (λ item. item.now) (λ rest. rest) };

    ghost remaining = { item_count (λ rest. rest) };

    fn next(&mut self) -> Option<&'a T> {
        while let Some((node, rest)) = self.nodes.split_first() {
            self.nodes = rest;
            if let Some(item) = node.get() {
                return Some(item);
            }
        }
        None
    }
}

impl<'a, T> FusedIterator for Iter<'a, T> {}

/// The tokens and items of a slab from some token on, seen as the list of those that are left.
#[derive(Drop)]
pub struct IterFrom<'a, T> {
    pub(super) nodes: &'a [Node<T>],
    // How many slots come before these.
    pub(super) passed: usize,
}

impl<'a, T> Model for IterFrom<'a, T> {
    ghost use Rattle.std.specs.Prelude.{ℕ, List, length, map, ◌+◌, ◌<◌};

    ghost Value = { List (ℕ × T) };

    ghost use Rattle.quick_cache_containers.specs.LinkedSlab.{entries_past};
    ghost use Rattle.quick_cache_containers.specs.Nodes.{item_of};

    ghost view = { λ it. entries_past it.passed (map item_of it.nodes.now) };

    ghost invariant = { λ it. it.passed + length it.nodes.now < 4294967295 };
}

impl<'a, T> Iterator for IterFrom<'a, T> {
    type Item = (Token, &'a T);

    ghost next_gives = { YieldsFirstBy (λ entry. (number entry.0, entry.1.now)) (λ rest. rest) };

    ghost remaining = { item_count (λ rest. rest) };

    fn next(&mut self) -> Option<(Token, &'a T)> {
        while let Some((node, rest)) = self.nodes.split_first() {
            let token = past(self.passed);
            self.nodes = rest;
            self.passed += 1;
            if let Some(item) = node.get() {
                return Some((token, item));
            }
        }
        None
    }
}

impl<'a, T> FusedIterator for IterFrom<'a, T> {}
