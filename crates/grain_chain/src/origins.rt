//! Where the roots of a walk came from, and what its requests are for.

ghost use Rattle.std.specs.Prelude.{◌≡◌, ◌||◌};
ghost use Rattle.grain_means.specs.Walks.{is_change};
ghost use Rattle.grain_chain.specs.Walking.{lends, origin_of};

use grain_fault::{EvalAltResult, Position};
use grain_program::AssignOp;
use grain_value::{Dynamic, Held, Path, Spot};

/// Where a root came from, which decides how it is set back.
#[derive(Drop)]
pub(crate) enum Origin {
    /// A byte, a character or a bit: it is put back.
    Part(Spot),
    /// What an indexer gave for an index, or a missing key's unit: an indexer sets it, and its faults
    /// have this position.
    Index {
        index: Dynamic,
        bracket: Position,
    },
    /// What a getter gave: the setter sets it. If the chain does not assign the property itself, a
    /// missing setter is no fault.
    Property {
        name: u32,
        setter: u32,
        pos: Position,
        assigned: bool,
    },
    /// What a method gave: nothing is set back, and it counts as a change.
    Method,
    /// Nothing is set back: a missing key's unit, or a byte, a character or a bit that the
    /// chain only reads.
    Nothing,
}

/// A root that is not the newest, the path to the place in it, the step that led from there to the
/// next root, and where the next root came from.
#[derive(Drop)]
pub(crate) struct OuterRoot {
    pub(crate) root: Held,
    pub(crate) path: Path,
    pub(crate) step: usize,
    pub(crate) origin: Origin,
}

/// What a chain does after its last step.
#[derive(Clone, Copy, PartialEq, Eq)]
pub(crate) enum Ending {
    /// It gives the value there.
    Read,
    /// It writes its value there.
    Write,
    /// It assigns its value there by an op-assignment.
    Operate(AssignOp),
}

/// What a step does at the place to which it leads.
#[derive(Clone, Copy, PartialEq, Eq)]
pub(crate) enum Role {
    /// It is not the last one: the walk goes on.
    Passes,
    /// It is the last one, and the chain reads there.
    Reads,
    /// It is the last one, and the chain writes its value there.
    Writes,
    /// It is the last one, and the chain assigns its value there by an op-assignment.
    Operates(AssignOp),
}

/// What is done in a new root.
#[derive(Drop)]
pub(crate) enum Onward {
    /// The remaining steps are taken.
    Further,
    /// The chain's value is assigned by its op-assignment, whose faults have this position.
    Operate(Position, AssignOp),
}

/// What is done with an answer of a getter, an indexer or a method: it becomes a new root, or, if
/// `own`, the chain's value.
#[derive(Drop)]
pub(crate) struct AnswerUse {
    /// The position of `ErrorDataRace`, raised if the answer is a lent cell.
    pub(crate) pos: Position,
    /// Whether it becomes the chain's value. It then stays as it is, even if it is a cell.
    pub(crate) own: bool,
    /// Where the new root came from.
    pub(crate) origin: Origin,
    /// What is done in the new root.
    pub(crate) go: Onward,
}

/// What the last request was for, which decides what the walk does with the answer to it.
#[derive(Drop)]
pub(crate) enum Awaited {
    /// An indexer sets a value.
    IndexSet,
    /// A setter sets a property to this value.
    PropertySet {
        name: u32,
        pos: Position,
        assigned: bool,
        set: Dynamic,
    },
    /// An indexer sets a property after its setter failed with this fault.
    SetInstead {
        fault: EvalAltResult,
        assigned: bool,
    },
    /// A getter gives a property.
    PropertyGot {
        name: u32,
        pos: Position,
        into: AnswerUse,
    },
    /// An indexer gives a property after its getter failed with this fault.
    GotInstead {
        fault: EvalAltResult,
        into: AnswerUse,
    },
    /// An indexer gives what an index names.
    IndexGot(AnswerUse),
    /// An indexer gives the value that an op-assignment changes.
    IndexRead {
        bracket: Position,
        index: Dynamic,
        into: AnswerUse,
    },
    /// The host's op-assignment assigns the chain's value.
    OpAssigned(Position, AssignOp),
    /// The host's operator gives the value that is then assigned.
    Operator(Position),
    /// A method gives a value. `lends` says whether the value at the walk's place is its receiver.
    Called {
        lends: bool,
        into: AnswerUse,
    },
}

impl Origin {
    /// Whether the root counts as a change, whatever was done in it.
    pub(crate) fn is_change(&self) -> bool
        ensures { result ≡ is_change (origin_of self.now) }
    {
        matches!(self, Origin::Method)
    }

    /// Whether something changed once the root is left, if `changed` says so of the root.
    pub(crate) fn counts(&self, changed: bool) -> bool
        ensures { result ≡ (is_change (origin_of self.now) || changed) }
    {
        self.is_change() || changed
    }
}

impl Awaited {
    /// Whether the request for this lends the value at the walk's place.
    pub(crate) fn lends(&self) -> bool
        ensures { result ≡ lends self.now }
    {
        match self {
            Awaited::Operator(_) => false,
            Awaited::Called { lends, .. } => *lends,
            _ => true,
        }
    }
}
