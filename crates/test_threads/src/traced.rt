//! The traced cache: what two threads did is replayed, and what was refused is not in its list.

mod beside;
mod history;
mod refused;
mod seats;
