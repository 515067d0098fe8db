//! Slots in a slice, each of which names its neighbours in a ring. The last free one names itself,
//! and the other free ones the next free one.
ghost use Rattle.std.specs.Prelude.{◌≡◌, ◌≢◌, ◌+◌, ◌<◌, ◌≤◌, true, false, length, map, count_by, is_some, IfSome, IfNone, MatchOption};
ghost use Rattle.std.specs.Int.NonZero.{non_zero_u32_get as number};
ghost use Rattle.quick_cache_containers.specs.LinkedSlab.{at_token, with_token};
ghost use Rattle.quick_cache_containers.specs.Nodes.{item_of, next_link, prev_link};
ghost use Rattle.quick_cache_containers.specs.Links.{is_taken, link_of, AreLinked, Unlinks, Links};

use crate::linked_slab::node::Node;
use quick_cache_model::Token;

/// Where the slot of a token stands.
#[inline(always)]
pub(crate) fn place(token: Token) -> usize
    ensures { result + 1 ≡ number token }
{
    (token.get() - 1) as usize
}

#[inline(always)]
fn set_next<T>(nodes: &mut [Node<T>], token: Token, next: Token)
    requires { number token ≤ length nodes.old }
    ensures slots { map item_of nodes.new ≡ map item_of nodes.old }
    ensures nexts { map next_link nodes.new
        ≡ with_token (map next_link nodes.old) (number token) (number next) }
    ensures prevs { map prev_link nodes.new ≡ map prev_link nodes.old }
{
    nodes[place(token)].set_next(next);
}

#[inline(always)]
fn set_prev<T>(nodes: &mut [Node<T>], token: Token, prev: Token)
    requires { is_taken (map item_of nodes.old) (number token) ≡ true }
    ensures slots { map item_of nodes.new ≡ map item_of nodes.old }
    ensures nexts { map next_link nodes.new ≡ map next_link nodes.old }
    ensures prevs { map prev_link nodes.new
        ≡ with_token (map prev_link nodes.old) (number token) (number prev) }
{
    nodes[place(token)].set_prev(prev);
}

/// The token behind one in its ring, or behind a free one in the list of free tokens.
#[inline(always)]
pub(crate) fn next_of<T>(nodes: &[Node<T>], token: Token) -> Token
    requires { number token ≤ length nodes.now }
    ensures { number result ≡ link_of (map next_link nodes.now) (number token) }
{
    nodes[place(token)].next()
}

#[inline(always)]
fn prev_of<T>(nodes: &[Node<T>], token: Token) -> Token
    requires { is_taken (map item_of nodes.now) (number token) ≡ true }
    ensures { number result ≡ link_of (map prev_link nodes.now) (number token) }
{
    nodes[place(token)].prev()
}

/// Takes a slot out of its ring, and answers its old successor if that was another.
#[inline]
pub(crate) fn unlink<T>(nodes: &mut [Node<T>], token: Token) -> Option<Token>
    requires linked { AreLinked (map item_of nodes.old) (map next_link nodes.old) (map prev_link nodes.old) }
    requires taken { is_taken (map item_of nodes.old) (number token) ≡ true }
    ensures slots { map item_of nodes.new ≡ map item_of nodes.old }
    ensures unlinks { Unlinks (map item_of nodes.old) (map next_link nodes.old) (map prev_link nodes.old)
        (number token) (map next_link nodes.new) (map prev_link nodes.new) }
    ensures next { MatchOption result (link_of (map next_link nodes.old) (number token) ≡ number token)
        (λ next. (number next ≡ link_of (map next_link nodes.old) (number token))
        × (number next ≢ number token)) }
{
    let next = next_of(nodes, token);
    if next.get() == token.get() {
        return None;
    }
    let prev = prev_of(nodes, token);
    set_next(nodes, token, token);
    set_prev(nodes, token, token);
    set_prev(nodes, next, prev);
    set_next(nodes, prev, next);
    Some(next)
}

/// Puts a slot that is a ring of one before the head of another ring.
#[inline]
pub(crate) fn link<T>(nodes: &mut [Node<T>], token: Token, head: Token)
    requires linked { AreLinked (map item_of nodes.old) (map next_link nodes.old) (map prev_link nodes.old) }
    requires taken { is_taken (map item_of nodes.old) (number token) ≡ true }
    requires head { is_taken (map item_of nodes.old) (number head) ≡ true }
    requires alone { link_of (map next_link nodes.old) (number token) ≡ number token }
    requires apart { number head ≢ number token }
    ensures slots { map item_of nodes.new ≡ map item_of nodes.old }
    ensures links { Links (map item_of nodes.old) (map next_link nodes.old) (map prev_link nodes.old)
        (number token) (number head) (map next_link nodes.new) (map prev_link nodes.new) }
{
    let last = prev_of(nodes, head);
    set_prev(nodes, head, token);
    set_next(nodes, last, token);
    set_next(nodes, token, head);
    set_prev(nodes, token, last);
}

/// Whether a slot stands at the token and has an item.
#[inline]
pub(crate) fn is_occupied<T>(nodes: &[Node<T>], token: Token) -> bool
    ensures { result ≡ is_taken (map item_of nodes.now) (number token) }
{
    let at = place(token);
    at < nodes.len() && nodes[at].is_occupied()
}

/// The item of a slot and its link, if it has an item.
#[inline]
pub(crate) fn get<T>(nodes: &[Node<T>], token: Token) -> Option<(&T, Token)>
    ensures absent { IfNone result (at_token (map item_of nodes.now) (number token) None ≡ None) }
    ensures item { IfSome result
        (λ found. at_token (map item_of nodes.now) (number token) None ≡ Some found.0.now) }
    ensures next { IfSome result
        (λ found. number found.1 ≡ link_of (map next_link nodes.now) (number token)) }
{
    let at = place(token);
    if at >= nodes.len() {
        return None;
    }
    let node = &nodes[at];
    match node.get() {
        Some(item) => Some((item, node.next())),
        None => None,
    }
}

/// Puts an item into a free slot, which names itself then, and answers the link that it had.
#[inline]
pub(crate) fn fill<T>(nodes: &mut [Node<T>], token: Token, item: T) -> Token
    requires within { number token ≤ length nodes.old }
    requires free { is_taken (map item_of nodes.old) (number token) ≡ false }
    ensures slots { map item_of nodes.new
        ≡ with_token (map item_of nodes.old) (number token) (Some item) }
    ensures nexts { map next_link nodes.new
        ≡ with_token (map next_link nodes.old) (number token) (number token) }
    ensures prevs { map prev_link nodes.new
        ≡ with_token (map prev_link nodes.old) (number token) (number token) }
    ensures link { number result ≡ link_of (map next_link nodes.old) (number token) }
{
    nodes[place(token)].fill(item, token)
}

/// Takes the item out of an occupied slot, and gives the slot a link.
#[inline]
pub(crate) fn vacate<T>(nodes: &mut [Node<T>], token: Token, link: Token) -> T
    requires { is_taken (map item_of nodes.old) (number token) ≡ true }
    ensures item { at_token (map item_of nodes.old) (number token) None ≡ Some result }
    ensures slots { map item_of nodes.new ≡ with_token (map item_of nodes.old) (number token) None }
    ensures nexts { map next_link nodes.new
        ≡ with_token (map next_link nodes.old) (number token) (number link) }
    ensures prevs { map prev_link nodes.new ≡ with_token (map prev_link nodes.old) (number token)
        (link_of (map prev_link nodes.new) (number token)) }
{
    nodes[place(token)].vacate(link)
}

/// How many slots have an item.
pub(crate) fn occupied_count<T>(nodes: &[Node<T>]) -> usize
    ensures { result ≡ count_by is_some (map item_of nodes.now) }
{
    let mut count = 0;
    for node in nodes {
        if node.is_occupied() {
            count += 1;
        }
    }
    count
}
