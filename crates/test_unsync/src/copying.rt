//! What a call shows of a value, and what a copy keeps.

pub mod any_case;
pub mod clones;
pub mod exactly;
pub mod halves;
pub mod numbered;
pub mod restored;
pub mod texts;
