//! Tests of the public calls that run programs: what no contract and no report of a listing says.
#![tactic(auto)]

#[cfg(test)]
mod commands;
#[cfg(test)]
mod vm;
