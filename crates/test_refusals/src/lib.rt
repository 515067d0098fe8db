//! Tests of hostile use: each request for memory refused in turn, in the cache for one thread and in
//! the one that threads share; hard hashes, weights and pins; and how often pins and predicates are
//! asked.
#![tactic(auto)]

#[cfg(test)]
mod asked;
#[cfg(test)]
mod drawn;
#[cfg(test)]
mod earlier;
#[cfg(test)]
mod hard;
#[cfg(test)]
mod sweeps;
#[cfg(test)]
mod texts;
