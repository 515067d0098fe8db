//! Small uses of the cache, which the README and the guide show word for word. Each runs as a test.
#![tactic(auto)]

#[cfg(test)]
mod leaving;
#[cfg(test)]
mod looking;
#[cfg(test)]
mod making;
#[cfg(test)]
mod promises;
#[cfg(test)]
mod runs;
#[cfg(test)]
mod saved;
#[cfg(test)]
mod signed_in;
