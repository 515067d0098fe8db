//! What stands beside a slot, whole: its mark too.
use crate::slots::aside::Aside;

/// What stands beside a slot, as it comes in and goes out.
#[derive(Clone, Copy)]
pub(crate) struct Beside {
    pub(crate) aside: Aside,
    // The mark of an item.
    pub(crate) mark: u8,
}

/// The same, seen where it stands: a look-up that reads no mark loads none.
#[derive(Clone, Copy)]
pub(crate) struct BesideRef<'a> {
    pub(crate) aside: &'a Aside,
    pub(crate) mark: &'a u8,
}
