//! Each request for memory of a row of calls, refused in turn.

pub mod long_rows;
pub mod rows;
pub mod shared_rows;
pub mod shared_sweep;
pub mod slip;
pub mod stage;
pub mod stage_loads;
pub mod sweep;
pub mod walk_sweep;
