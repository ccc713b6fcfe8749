//! The store of cells: the values that closures share.

ghost use Rattle.std.specs.Prelude.{◌≡◌, ◌==◌, ◌<◌, ◌++◌, ◌∷◌, [], true, false, length, Some, IfOk, IfErr, if◌then◌else◌, is_ok, option_map, slice_get, slice_set};
ghost use Rattle.std.specs.Option.{option_copied};
ghost use Rattle.grain_value.specs.Cells.{idle, lent, is_busy, is_read_only, content, held_value, content_flag};
ghost use Rattle.grain_value.specs.declared.values.value_faults.ValueFault.TheVariants as fault;

use crate::memory::OutOfMemory;
use crate::values::{Dynamic, Held, ValueFault};
use std::alloc::Global;
use std::marker::Model;
use std::mem;

/// What a cell holds, and whether its content is lent. While it is, the cell holds unit, with the
/// read-only flag of the content.
#[derive(Drop)]
pub struct Cell {
    pub held: Held,
    pub busy: bool,
}

/// Cells, each of which is named by its position. Clauses see the list of them.
///
/// A cell that a call names has to be in the store.
#[derive(Drop)]
pub struct Store {
    cells: Vec<Cell>,
}

impl Model for Store {
    ghost use Rattle.std.specs.Prelude.{List};
    ghost use Rattle.grain_value.specs.declared.stores.Cell.{Cell};
    ghost use Rattle.std.specs.Coded.{codes};
    ghost use Rattle.grain_value.specs.laws.TreeCode.{coded_tree};

    ghost Value = { List Cell };

    ghost coded = { Prim.hlevel (codes, coded_tree) };

    ghost view = { λ s. s.cells.items };
}

impl Store {
    /// No cells. It takes no memory.
    pub fn new(alloc: Global) -> Store
        ensures { result ≡ [] }
    {
        Store {
            cells: Vec::new(alloc),
        }
    }

    /// How many cells there are.
    pub fn len(&self) -> usize
        ensures { result ≡ length self.now }
    {
        self.cells.len()
    }

    /// Whether there are no cells.
    pub fn is_empty(&self) -> bool
        ensures { result ≡ (length self.now == 0) }
    {
        self.cells.is_empty()
    }

    /// Whether the content of the cell is lent.
    pub fn is_busy(&self, cell: usize) -> bool
        requires { cell < length self.now }
        ensures { Some result ≡ option_map is_busy (slice_get self.now cell) }
    {
        self.cells[cell].busy
    }

    /// Whether the content of the cell is read-only. While it is lent, this is as it was when it
    /// was lent.
    pub fn is_read_only(&self, cell: usize) -> bool
        requires { cell < length self.now }
        ensures { Some result ≡ option_map is_read_only (slice_get self.now cell) }
    {
        self.cells[cell].held.read_only
    }

    /// What the cell holds, if it is there and its content is not lent. A cell need not be in the
    /// store for this call.
    pub fn find(&self, cell: usize) -> Option<&Dynamic>
        ensures { option_copied result ≡ content (slice_get self.now cell) }
    {
        match self.cells.get(cell) {
            Some(Cell { held, busy: false }) => Some(&held.value),
            _ => None,
        }
    }

    /// Whether the content of the cell can only be read. A cell need not be in the store for this
    /// call: one that is not there can be written.
    pub fn is_constant(&self, cell: usize) -> bool
        ensures { result ≡ content_flag (slice_get self.now cell) }
    {
        match self.cells.get(cell) {
            Some(place) => place.held.read_only,
            None => false,
        }
    }

    // What the cell has, if it is there: unit while its content is lent.
    pub(crate) fn standing(&self, cell: usize) -> Option<&Dynamic>
        ensures { option_copied result ≡ option_map held_value (slice_get self.now cell) }
    {
        match self.cells.get(cell) {
            Some(place) => Some(&place.held.value),
            None => None,
        }
    }

    /// A new cell that holds this. It gives the cell's number, which is the next. Where there is no
    /// memory the store is as it was, and what was to be held comes back.
    pub fn add(&mut self, held: Held) -> Result<usize, (OutOfMemory, Held)>
        ensures number { IfOk result (λ n. n ≡ length self.old) }
        ensures cells { self.new ≡ (if is_ok result then self.old ++ idle held ∷ [] else self.old) }
        ensures back { IfErr result (λ e. e.1 ≡ held) }
    {
        let cell = self.cells.len();
        match self.cells.push(Cell { held, busy: false }) {
            Ok(()) => Ok(cell),
            Err(refused) => Err((OutOfMemory, refused.value.held)),
        }
    }

    /// What the cell holds, or `Busy` where its content is lent.
    pub fn get(&self, cell: usize) -> Result<&Held, ValueFault>
        requires { cell < length self.now }
        ensures content { IfOk result (λ h. slice_get self.now cell ≡ Some (idle h.now)) }
        ensures busy { IfErr result (λ e.
            (e ≡ fault.Busy) × (option_map is_busy (slice_get self.now cell) ≡ Some true)) }
    {
        let place = &self.cells[cell];
        if place.busy {
            return Err(ValueFault::Busy);
        }
        Ok(&place.held)
    }

    /// Takes what the cell holds, which is lent from then on, or gives `Busy` where it is lent
    /// already.
    pub fn lend(&mut self, cell: usize) -> Result<Held, ValueFault>
        requires { cell < length self.old }
        ensures content { IfOk result (λ h.
            (slice_get self.old cell ≡ Some (idle h))
            × (self.new ≡ slice_set self.old cell (lent h))) }
        ensures busy { IfErr result (λ e.
            (e ≡ fault.Busy) × (option_map is_busy (slice_get self.old cell) ≡ Some true)
            × (self.new ≡ self.old)) }
    {
        let place = &self.cells[cell];
        if place.busy {
            return Err(ValueFault::Busy);
        }
        let read_only = place.held.read_only;
        let lent = Cell {
            held: Held {
                value: Dynamic::Unit,
                read_only,
            },
            busy: true,
        };
        Ok(mem::replace(&mut self.cells[cell], lent).held)
    }

    /// Writes what the cell holds, which is not lent.
    pub fn set(&mut self, cell: usize, held: Held)
        requires { option_map is_busy (slice_get self.old cell) ≡ Some false }
        ensures { self.new ≡ slice_set self.old cell (idle held) }
    {
        self.cells[cell].held = held;
    }

    /// Puts back what was lent of the cell, or what came of it. The cell is not lent from then on.
    pub fn give_back(&mut self, cell: usize, held: Held)
        requires { option_map is_busy (slice_get self.old cell) ≡ Some true }
        ensures { self.new ≡ slice_set self.old cell (idle held) }
    {
        self.cells[cell] = Cell { held, busy: false };
    }
}
