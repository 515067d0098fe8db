//! An example of each call of the cache for one thread. The guide shows them.
#![tactic(auto)]

#[cfg(test)]
mod loading;
#[cfg(test)]
mod looking;
#[cfg(test)]
mod making;
#[cfg(test)]
mod references;
#[cfg(test)]
mod removing;
#[cfg(test)]
mod writing;
