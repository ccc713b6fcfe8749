//! The records of pools that an instruction uses: whether they are there, and whether each of their
//! own indices names an entry of its pool.

ghost use Rattle.std.specs.Prelude.{◌≡◌, length, slice_get};
ghost use Rattle.grain_program.specs.View.{view_of};
ghost use Rattle.grain_program.specs.Indices.{record_named, root_indexed, step_indexed, steps_indexed, tail_indexed, chain_indexed};

use crate::code::chains::{Root, Step, Tail};
use crate::code::parts::Parts;

/// Whether there is an op-assignment at the index, and its names are in their pool.
pub fn has_assign_op(parts: &Parts, index: u32) -> bool
    ensures { result ≡ record_named (length parts.now.names) (slice_get parts.now.assign_ops
        index) }
{
    match parts.assign_ops.get(index as usize) {
        Some(record) => {
            let names = parts.names.len();
            (record.op_assign_name as usize) < names && (record.op_name as usize) < names
        }
        None => false,
    }
}

/// Whether the name of the root, if it has one, is one of this number.
fn has_root_name(names: usize, root: Root) -> bool
    ensures { result ≡ root_indexed names root }
{
    match root {
        Root::Local { name, .. } => (name as usize) < names,
        Root::This { .. } | Root::Temporary => true,
    }
}

/// Whether each name of the step is one of this number.
fn has_step_names(names: usize, step: Step) -> bool
    ensures { result ≡ step_indexed names step }
{
    match step {
        Step::Index { .. } => true,
        Step::Property {
            name,
            getter,
            setter,
            ..
        } => (name as usize) < names && (getter as usize) < names && (setter as usize) < names,
        Step::Method { name, .. } => (name as usize) < names,
    }
}

/// Whether each name of the steps is one of this number.
fn have_step_names(names: usize, steps: &[Step]) -> bool
    ensures { result ≡ steps_indexed names steps.now }
{
    for step in steps {
        if !has_step_names(names, *step) {
            return false;
        }
    }
    true
}

/// Whether the op-assignment of the tail, if it has one, is there with its names.
fn has_tail_entries(parts: &Parts, tail: Tail) -> bool
    ensures { result ≡ tail_indexed (view_of parts.now) tail }
{
    match tail {
        Tail::Read | Tail::Assign { op: None } => true,
        Tail::Assign { op: Some(index) } => has_assign_op(parts, index),
    }
}

/// Whether there is a chain at the index, and each of its indices names an entry of its pool.
pub fn has_chain(parts: &Parts, index: u16) -> bool
    ensures { result ≡ chain_indexed (view_of parts.now) (slice_get parts.now.chains index) }
{
    match parts.chains.get(index as usize) {
        Some(chain) => {
            let names = parts.names.len();
            has_root_name(names, chain.root)
                && have_step_names(names, chain.steps.as_slice())
                && has_tail_entries(parts, chain.tail)
        }
        None => false,
    }
}
