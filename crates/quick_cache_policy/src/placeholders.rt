//! Placeholders: made and met, filled and given up; and entry calls.

pub mod entry;
pub mod fill;
pub mod loading;
