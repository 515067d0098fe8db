//! Tests of `qcrun`: what is printed for whole scripts, of which one has 2000 lines and one 70,000, and
//! the status at the end.
#![tactic(auto)]

#[cfg(test)]
mod evictions;
#[cfg(test)]
mod memory;
#[cfg(test)]
mod options;
#[cfg(test)]
mod scripts;
#[cfg(test)]
mod stored;
