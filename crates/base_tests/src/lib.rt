//! Tests of the public calls of faults, operators, the engine and the host in memory, and of the texts
//! and sizes of values: what no contract says.
#![tactic(auto)]

#[cfg(test)]
mod fault;
#[cfg(test)]
mod global;
#[cfg(test)]
mod host;
#[cfg(test)]
mod made;
#[cfg(test)]
mod ops;
#[cfg(test)]
mod raised;
#[cfg(test)]
mod sizes;
#[cfg(test)]
mod written;
