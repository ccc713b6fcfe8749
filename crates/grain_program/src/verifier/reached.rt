//! The switches to whose targets a shape has come.

ghost use Rattle.std.specs.Prelude.{◌≡◌, IfOk, None, replicate, slice_index_or, slice_set};

use grain_value::OutOfMemory;
use std::alloc::Global;
use std::marker::Model;

/// For each switch the lowest of its targets, once a shape has come to all of them. So where a switch is
/// done a second time, one look at that target says whether the same shape comes again.
#[derive(Drop)]
pub struct Reached {
    lowest: Vec<Option<u32>>,
}

impl Model for Reached {
    ghost use Rattle.std.specs.Prelude.{ℕ, List, Option};

    ghost Value = { List (Option ℕ) };

    ghost view = { λ r. r.lowest.items };
}

impl Reached {
    /// No shape has come to the targets of this many switches.
    pub fn new(alloc: Global, switches: usize) -> Result<Reached, OutOfMemory>
        ensures { IfOk result (λ reached. reached ≡ replicate switches None) }
    {
        let lowest = vec![in alloc; None; switches]?;
        Ok(Reached { lowest })
    }

    /// The lowest target of the switch at the index, if a shape has come to its targets.
    pub fn lowest(&self, index: u16) -> Option<u32>
        ensures { result ≡ slice_index_or self.now index None }
    {
        match self.lowest.get(index as usize) {
            Some(lowest) => *lowest,
            None => None,
        }
    }

    /// Notes the lowest target of the switch at the index.
    pub fn note(&mut self, index: u16, lowest: Option<u32>)
        ensures { self.new ≡ slice_set self.old index lowest }
    {
        let index = index as usize;
        if index < self.lowest.len() {
            self.lowest[index] = lowest;
        }
    }
}
