//! Lists of handlers. Each is kept once, under a number, so that no list is copied, and two are the
//! same where their numbers are.

ghost use Rattle.std.specs.Prelude.{◌≡◌, ◌<◌, ◌≤◌, ◌^◌, [], ◌∷◌, length, IfOk, MatchOption};
ghost use Rattle.grain_program.specs.Shapes.{outer, handled, lacks_handler, is_under, lacks, shape_after, clash};
ghost use Rattle.grain_program.specs.HandlerLists.{handler_of, list_at, Grows};
ghost use Rattle.grain_program.specs.Numbered.{shape_of, Leaves};

use crate::code::effects::{Effect, Handling};
use crate::verifier::refusals::Refusal;
use crate::verifier::shapes::NumberedShape;
use grain_value::OutOfMemory;
use std::alloc::Global;
use std::collections::BTreeMap;
use std::marker::Model;

/// A handler before the list of those around it. The list that it makes with them has the number of
/// the node's place in the table, counted from 1.
#[derive(Clone, Copy, Debug, PartialEq, Eq, PartialOrd, Ord)]
pub struct Node {
    /// The number of the list of those around it, 0 where there are none.
    pub outer: u32,
    /// Where the frame goes on once the handler has caught.
    pub target: u32,
    /// The index of the name of its variable, if it has one.
    pub variable: Option<u16>,
    /// How many operands there were at its push.
    pub height: u32,
    /// How many cursors there were at its push.
    pub cursors: u32,
}

/// Lists of handlers by number. Number 0 is the empty one.
#[derive(Drop)]
pub struct HandlerLists {
    nodes: Vec<Node>,
    numbers: BTreeMap<Node, u32>,
}

impl Model for HandlerLists {
    ghost use Rattle.std.specs.Prelude.{List, []};
    ghost use Rattle.grain_program.specs.Shapes.{TryHandler};
    ghost use Rattle.grain_program.specs.HandlerLists.{lists_from, IsTable};

    ghost Value = { List (List TryHandler) };

    ghost view = { λ t. lists_from [] t.nodes.items };

    ghost invariant = { λ t. IsTable t.nodes.items t.numbers };
}

impl HandlerLists {
    /// No list but the empty one.
    pub fn new(alloc: Global) -> HandlerLists
        ensures { result ≡ [] }
    {
        HandlerLists {
            nodes: Vec::new(alloc),
            numbers: BTreeMap::new(alloc),
        }
    }

    /// The innermost handler of the list, if it has one.
    fn innermost(&self, list: u32) -> Option<Node>
        requires { list ≤ length self.now }
        ensures { MatchOption result (list_at self.now list ≡ []) (λ node.
            (list_at self.now list ≡ handler_of node ∷ list_at self.now node.outer)
            × (node.outer ≤ length self.now)) }
    {
        if list == 0 {
            None
        } else {
            Some(self.nodes[list as usize - 1])
        }
    }

    /// The number of the list of the handlers around the innermost one of this list.
    fn outer(&self, list: u32) -> u32
        requires { list ≤ length self.now }
        ensures exact { list_at self.now result ≡ outer (list_at self.now list) }
        ensures within { result ≤ length self.now }
    {
        match self.innermost(list) {
            Some(node) => node.outer,
            None => 0,
        }
    }

    /// The number of the list of this handler and those around it, which gets one if it has none.
    fn push(&mut self, node: Node) -> Result<u32, OutOfMemory>
        requires { node.outer ≤ length self.old }
        ensures grown { Grows self.old self.new }
        ensures within { IfOk result (λ list. list ≤ length self.new) }
        ensures exact { IfOk result (λ list. list_at self.new list ≡ handler_of node ∷ list_at
            self.old node.outer) }
    {
        if let Some(list) = self.numbers.get(&node).copied() {
            return Ok(list);
        }
        let Ok(list) = u32::try_from(self.nodes.len() + 1) else {
            return Err(OutOfMemory);
        };
        self.nodes.push(node)?;
        match self.numbers.insert(node, list) {
            Ok(_) => Ok(list),
            Err(_) => {
                self.nodes.pop();
                Err(OutOfMemory)
            }
        }
    }

    /// Whether the instruction takes a handler away where there is none.
    fn lacks_handler(&self, handling: Handling, list: u32) -> bool
        requires { list ≤ length self.now }
        ensures { result ≡ lacks_handler handling (list_at self.now list) }
    {
        match handling {
            Handling::Keep => false,
            Handling::Push(_, _) => false,
            Handling::Pop => match self.innermost(list) {
                Some(_) => false,
                None => true,
            },
        }
    }

    /// Whether with this number of operands and of cursors there are fewer of either than at the push
    /// of the innermost handler.
    fn is_under(&self, height: u32, cursors: u32, list: u32) -> bool
        requires { list ≤ length self.now }
        ensures { result ≡ is_under height cursors (list_at self.now list) }
    {
        match self.innermost(list) {
            Some(node) => height < node.height || cursors < node.cursors,
            None => false,
        }
    }

    /// The number of the list after an instruction that leaves this number of operands and of cursors.
    fn handled(
        &mut self,
        handling: Handling,
        height: u32,
        cursors: u32,
        list: u32,
    ) -> Result<u32, OutOfMemory>
        requires { list ≤ length self.old }
        ensures grown { Grows self.old self.new }
        ensures within { IfOk result (λ after. after ≤ length self.new) }
        ensures exact { IfOk result (λ after. list_at self.new after ≡ handled handling height
            cursors (list_at self.old list)) }
    {
        match handling {
            Handling::Keep => Ok(list),
            Handling::Push(target, variable) => self.push(Node {
                outer: list,
                target,
                variable,
                height,
                cursors,
            }),
            Handling::Pop => Ok(self.outer(list)),
        }
    }

    /// Whether there are too few operands, cursors or handlers for an instruction of this effect.
    fn lacks(&self, effect: Effect, shape: NumberedShape) -> bool
        requires { shape.list ≤ length self.now }
        ensures { result ≡ lacks effect (shape_of self.now shape) }
    {
        u64::from(shape.height) < effect.takes
            || shape.cursors < effect.looping.takes()
            || self.lacks_handler(effect.handling, shape.list)
    }

    /// The shape after an instruction of this effect at the address, where a frame may have max
    /// operands.
    pub fn shape_after(
        &mut self,
        shape: NumberedShape,
        max: u16,
        address: usize,
        effect: Effect,
    ) -> Result<NumberedShape, Refusal>
        requires { shape.list ≤ length self.old }
        ensures grown { Grows self.old self.new }
        ensures small { IfOk result (λ after. after.height < 2 ^ 16) }
        ensures within { IfOk result (λ after. after.list ≤ length self.new) }
        ensures exact { Leaves self.new result (shape_after max address effect (shape_of self.old
            shape)) }
    {
        if self.lacks(effect, shape) {
            return Err(Refusal::Underflow(address));
        }
        let left = (u64::from(shape.height) - effect.takes) as u32;
        let left_cursors = shape.cursors - effect.looping.takes();
        if self.is_under(left, left_cursors, shape.list) {
            return Err(Refusal::UnderTry(address));
        }
        let height = u64::from(left) + u64::from(effect.gives);
        if u64::from(max) < height {
            return Err(Refusal::TooDeep(address));
        }
        let height = height as u32;
        // No code is so long that there are more cursors.
        let Some(cursors) = left_cursors.checked_add(effect.looping.gives()) else {
            return Err(Refusal::Memory);
        };
        match self.handled(effect.handling, height, cursors, shape.list) {
            Ok(list) => Ok(NumberedShape {
                height,
                cursors,
                list,
            }),
            Err(_) => Err(Refusal::Memory),
        }
    }

    /// What is wrong where another shape comes to the address of this one.
    pub fn clash(
        &self,
        known: NumberedShape,
        other: NumberedShape,
        address: usize,
    ) -> Option<Refusal>
        requires known { known.list ≤ length self.now }
        requires other { other.list ≤ length self.now }
        ensures { result ≡ clash address (shape_of self.now known) (shape_of self.now other) }
    {
        // This opens the type's invariant for the proof: two lists are equal where their numbers are.
        let _ = &self.nodes;
        if known.height != other.height {
            return Some(Refusal::HeightDisagrees(address));
        }
        if known.cursors != other.cursors {
            return Some(Refusal::HeightDisagrees(address));
        }
        if known.list == other.list {
            None
        } else {
            Some(Refusal::HandlerDisagrees(address))
        }
    }
}
