//! A value with its size beside it.
ghost use Rattle.std.specs.Prelude.{◌≡◌};
ghost use Rattle.std.specs.Fn.{FnOnceReturnsAt};

use crate::bytes::HasBytes;
use crate::pins::Held;
use std::ops::Deref;

/// A value and its size, as who puts it tells it, or as a closure measures it once: for a type that
/// is not `HasBytes`, or whose size takes long to find. The size takes 8 bytes of each entry, and is
/// believed.
#[derive(Debug, Clone, PartialEq, Eq, Drop)]
pub struct WithBytes<V> {
    /// The value.
    pub value: V,
    /// Its size. Who changes the value tells it anew.
    pub bytes: u64,
}

impl<V> WithBytes<V> {
    /// A value of that size.
    pub fn new(value: V, bytes: u64) -> Self
        ensures { result ≡ record { value = value; bytes = bytes } }
    {
        WithBytes { value, bytes }
    }

    /// A value of the size that the closure answers.
    pub fn measured<F: FnOnce(&V) -> u64>(value: V, measure: F) -> Self
        requires callable { F.IsAlwaysCallable measure }
        ensures value { result.value ≡ value }
        ensures bytes { FnOnceReturnsAt F.FnOnce measure value result.bytes }
    {
        let bytes = measure(&value);
        WithBytes { value, bytes }
    }
}

impl<V> Deref for WithBytes<V> {
    type Target = V;

    ghost deref_gives = { λ sized value. value ≡ sized.value };

    fn deref(&self) -> &V
        ensures { result.now ≡ self.now.value }
    {
        &self.value
    }
}

impl<V> HasBytes for WithBytes<V> {
    ghost byte_count = { λ sized. sized.bytes };

    fn byte_count(&self) -> u64 {
        self.bytes
    }
}

impl<V: Held> Held for WithBytes<V> {
    fn is_held(&self) -> bool {
        self.value.is_held()
    }
}
