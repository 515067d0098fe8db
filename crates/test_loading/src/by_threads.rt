//! Tests of the calls of the shared cache that load values: rows by one thread and by two, and four
//! threads with many keys.

mod asking;
mod entries;
mod refused;
mod rows;
mod storms;
