//! Names of slots.

use std::num::NonZeroU32;

/// Names a slot: the first has token 1.
pub type Token = NonZeroU32;
