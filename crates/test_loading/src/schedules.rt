//! Steps on keys that are being loaded, and what each of them may be told.

pub mod generator;
pub mod later;
pub mod lists;
pub mod plain;
pub mod random;
pub mod rows;
pub mod running;
pub mod steps;
