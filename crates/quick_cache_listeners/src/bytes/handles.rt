//! Sizes of what is held by a handle: those of the value behind it.
ghost use Rattle.std.specs.Prelude.{◌≡◌};
ghost use Rattle.std.specs.Arc.{arc_value};

use crate::bytes::HasBytes;
use std::alloc::Allocator;
use std::rc::Rc;
use std::sync::Arc;

impl<T: HasBytes, A: Allocator> HasBytes for Box<T, A> {
    ghost byte_count = { λ handle. T.byte_count handle.value };

    fn byte_count(&self) -> u64 {
        self.as_ref().byte_count()
    }
}

impl<T: HasBytes, A: Allocator> HasBytes for Rc<T, A> {
    ghost byte_count = { λ handle. T.byte_count handle.value };

    fn byte_count(&self) -> u64 {
        (**self).byte_count()
    }
}

impl<T: HasBytes, A: Allocator> HasBytes for Arc<T, A> {
    ghost byte_count = { λ handle. T.byte_count (arc_value handle) };

    fn byte_count(&self) -> u64 {
        (**self).byte_count()
    }
}
