//! The lines at which a run ends.

ghost use Rattle.std.specs.Prelude.{◌≡◌, ◌++◌, ◌∷◌, [], true, is_ok, if◌then◌else◌};
ghost use Rattle.std.specs.Option.{option_copied};
ghost use Rattle.grain_value.specs.View.{tree};
ghost use Rattle.grain_value.specs.Cells.{cell_bound, is_clean};
ghost use Rattle.grain_host.specs.Stops.{stop_at, stops_bound, stops_clean};

use grain_value::{Dynamic, List, OutOfMemory};
use std::alloc::Global;
use std::marker::Model;

/// A number of operations at which a run ends, and the token with which it ends.
#[derive(Drop)]
struct StopLine {
    count: u64,
    value: Dynamic,
}

/// The lines at which a run ends, in order. Each token is clean and names no cell.
#[derive(Drop)]
pub struct StopLines {
    lines: List<StopLine>,
}

impl Model for StopLines {
    ghost use Rattle.std.specs.Prelude.{List};
    ghost use Rattle.std.specs.Coded.{codes};
    ghost use Rattle.grain_value.specs.laws.TreeCode.{coded_tree};
    ghost use Rattle.grain_host.specs.declared.stop_lines.StopLine.{StopLine};
    ghost use Rattle.grain_host.specs.Stops.{ArePlain};

    ghost Value = { List StopLine };

    ghost coded = { Prim.hlevel (codes, coded_tree) };

    ghost view = { λ s. s.lines };

    ghost invariant = { λ s. ArePlain s.lines };
}

impl StopLines {
    /// No lines. It takes no memory.
    pub fn new(alloc: Global) -> StopLines
        ensures { result ≡ [] }
    {
        StopLines {
            lines: List::new(alloc),
        }
    }

    /// Adds a line. After want of memory the lines are as they were.
    pub fn push(&mut self, count: u64, value: Dynamic) -> Result<(), OutOfMemory>
        requires clean { is_clean (tree value) ≡ true }
        requires cell_free { cell_bound (tree value) ≡ 0 }
        ensures { self.new ≡
            (if is_ok result then self.old ++ record { count = count; value = value } ∷ []
            else self.old) }
    {
        self.lines.push(StopLine { count, value })
    }

    /// The token for this number of operations, if a run is to end there.
    pub fn token(&self, count: u64) -> Option<&Dynamic>
        ensures { option_copied result ≡ stop_at count self.now }
    {
        for line in self.lines.as_slice() {
            if line.count == count {
                return Some(&line.value);
            }
        }
        None
    }

    /// It does nothing. Its clauses say what is so of all lines that can be made.
    pub fn vouch(&self)
        ensures clean { stops_clean self.now ≡ true }
        ensures cell_free { stops_bound self.now ≡ 0 }
    {
        let _ = &self.lines;
    }
}
