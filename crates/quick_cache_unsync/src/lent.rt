//! Values that are lent, to read and to write.

pub mod reading;
pub mod reference;
pub mod writes_through;
