//! Tests of the public calls that make, verify and read programs, and of the table of addresses: what no
//! contract and no report of a listing says.
#![tactic(auto)]

#[cfg(test)]
mod addresses;
#[cfg(test)]
mod chains;
#[cfg(test)]
mod instructions;
#[cfg(test)]
mod listing;
#[cfg(test)]
mod program;
