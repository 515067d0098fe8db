//! Listeners, counts, pins and weights that are ready made, in both caches.

mod counting;
mod fitting;
mod told;
mod why;
