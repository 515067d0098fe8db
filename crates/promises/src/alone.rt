//! What those rely on who have the cache for one thread, or one of its parts.

pub mod answered;
pub mod containers;
pub mod ending;
pub mod keys;
pub mod listened;
pub mod made;
pub mod many;
pub mod one_thread;
pub mod options;
pub mod room;
pub mod runs;
pub mod saved;
pub mod served;
pub mod taken;
pub mod tested;
pub mod weighed;
