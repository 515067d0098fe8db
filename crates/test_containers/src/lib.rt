//! Tests of the slab and the table, of the loading core, and of options and sizes.
#![tactic(auto)]

#[cfg(test)]
mod asked_memory;
#[cfg(test)]
mod linked_slab;
#[cfg(test)]
mod options;
#[cfg(test)]
mod protocol;
#[cfg(test)]
mod ration;
#[cfg(test)]
mod refused_growths;
#[cfg(test)]
mod table;
