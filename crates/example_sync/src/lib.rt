//! A cache that threads share, in use, and an example of each of its calls. The guide shows them.
#![tactic(auto)]

#[cfg(test)]
mod calls;
#[cfg(test)]
mod divisors;
#[cfg(test)]
mod memoised;
#[cfg(test)]
mod resolver;
#[cfg(test)]
mod saved;
#[cfg(test)]
mod sessions;
