//! What a program or an engine brings along beside code: modules, and the fragments of a program that
//! are interpreted.
#![tactic(auto)]

mod fragments;
mod modules;

pub use fragments::{Fragment, FragmentItem, Items};
pub use modules::{
    Module, ModuleEntry, ModuleFunction, ModuleIterator, ModuleTable, ModuleVariable, SharedModule,
};
