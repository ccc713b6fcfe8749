//! Tests of the public calls of values, modules and stacks: what no contract says.
#![tactic(auto)]

#[cfg(test)]
mod cursors;
#[cfg(test)]
mod fragments;
#[cfg(test)]
mod made;
#[cfg(test)]
mod modules;
#[cfg(test)]
mod nested;
#[cfg(test)]
mod paths;
#[cfg(test)]
mod scopes;
#[cfg(test)]
mod stack;
#[cfg(test)]
mod stores;
#[cfg(test)]
mod texts;
#[cfg(test)]
mod tokens;
