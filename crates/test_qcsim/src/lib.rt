//! Tests of the parts of `qcsim`: what is read, what is not understood, what each policy has, and what
//! is written.
#![tactic(auto)]

#[cfg(test)]
mod arguments;
#[cfg(test)]
mod lines;
#[cfg(test)]
mod policies;
#[cfg(test)]
mod shown;
