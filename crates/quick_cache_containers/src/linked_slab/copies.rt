//! A copy of a `LinkedSlab`, slot for slot.
ghost use Rattle.std.specs.Prelude.{◌≡◌, IfOk, IfErr, OnErr};
ghost use Rattle.std.specs.List.{AllZip};
ghost use Rattle.quick_cache_containers.specs.LinkedSlab.{AreItemCopies, IsParted};
ghost use Rattle.quick_cache_containers.specs.Links.{IsNodeCopy};

use crate::linked_slab::LinkedSlab;
use crate::linked_slab::node::Node;
use quick_cache_model::Refusal;
use std::alloc::Allocator;

/// How the items of a slab are copied.
pub trait CopyItem<T> {
    /// The second is a copy of the first.
    ghost is_copy: { Self → T → T → Type 0 };

    /// A copy of an item. A refusal is for want of memory.
    fn copy(&self, item: &T) -> Result<T, Refusal>
        ensures copies { IfOk result (is_copy self.now item.now) }
        ensures refused { OnErr result (result ≡ Err Refusal.Memory) };
}

// A slot with the same links and a copy of the item, if it has one.
fn copy_node<T, C: CopyItem<T>>(node: &Node<T>, copier: &C) -> Result<Node<T>, Refusal>
    ensures copies { IfOk result (IsNodeCopy (C.is_copy copier.now)
        node.now) }
    ensures refused { OnErr result (result ≡ Err Refusal.Memory) }
{
    let item = match node.get() {
        Some(item) => Some(copier.copy(item)?),
        None => None,
    };
    Ok(node.with(item))
}

// Copies of the slots, in their order.
fn copy_nodes<T: Drop, A: Allocator, C: CopyItem<T>>(
    nodes: &[Node<T>],
    alloc: A,
    copier: &C,
) -> Result<Vec<Node<T>, A>, Refusal>
    ensures copies { IfOk result (λ copies.
        AllZip (IsNodeCopy (C.is_copy copier.now)) nodes.now copies.items) }
    ensures refused { OnErr result (result ≡ Err Refusal.Memory) }
{
    let Ok(mut copies) = Vec::with_capacity(alloc, nodes.len()) else {
        return Err(Refusal::Memory);
    };
    for i in 0..nodes.len() {
        copies.push_reserved(copy_node(&nodes[i], copier)?);
    }
    Ok(copies)
}

impl<T: Drop, A: Allocator> LinkedSlab<T, A> {
    /// A slab with a copy of each item under the token that the item has here, in the same rings.
    /// The same tokens are free, and are given out in the same order.
    ///
    /// A refusal is for want of memory, be it of a copy.
    pub fn try_copy<C: CopyItem<T>>(&self, alloc: A, copier: &C) -> Result<Self, Refusal>
        ensures copies { IfOk result (AreItemCopies (C.is_copy copier.now) self.now) }
        ensures parted { IfOk result IsParted }
        ensures refused { OnErr result (result ≡ Err Refusal.Memory) }
    {
        Ok(LinkedSlab {
            nodes: copy_nodes(self.nodes.as_slice(), alloc, copier)?,
            next_free: self.next_free,
        })
    }
}
