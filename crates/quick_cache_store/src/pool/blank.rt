//! What stands in a free slot.
ghost use Rattle.std.specs.Prelude.{◌≡◌, ℕ, Some, None, IfSome, IfNone};
ghost use Rattle.std.specs.Int.NonZero.{non_zero_u32_get as number};
ghost use Rattle.quick_cache_store.specs.Pool.{times};
ghost use Rattle.quick_cache_store.specs.Stack.{slot_if, IsNoted};

use quick_cache_model::Token;

/// An item that can be blank. A blank stands in a free slot, and has noted a number.
pub trait Blank {
    /// The item is blank.
    ghost is_blank: { Self → Type 0 };

    /// The number that it has noted, if it is blank: else it is any.
    ghost note_of: { Self → ℕ };

    /// A blank that has noted this.
    fn blank(note: u32) -> Self
        ensures blank { is_blank result }
        ensures note { note_of result ≡ note };

    /// The number that it has noted.
    fn note(&self) -> u32
        ensures { result ≡ note_of self.now };

    /// Lets a blank go.
    fn discard(self)
        requires { is_blank self };
}

/// The item of a slot, if its token is not among the free.
///
/// A slot is free only if the stack has its token where the item of the slot says. So it does not
/// look through the stack, and an occupied slot may have a blank too.
#[inline(always)]
pub(crate) fn occupant<'a, T: Blank>(free: &[u32], token: Token, item: &'a T) -> Option<&'a T>
    requires { IsNoted T.is_blank T.note_of free.now (number token) item.now }
    ensures absent { IfNone result (slot_if (times (number token) free.now) item.now ≡ None) }
    ensures item { IfSome result
        (λ found. slot_if (times (number token) free.now) item.now ≡ Some found.now) }
{
    let note = item.note() as usize;
    if note < free.len() && free[note] == token.get() {
        return None;
    }
    Some(item)
}
