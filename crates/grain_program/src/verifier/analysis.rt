//! The search for a typing.

ghost use Rattle.std.specs.Prelude.{◌≡◌, ◌<◌, ◌≤◌, ◌^◌, [], length, map, IfOk, MatchOption};
ghost use Rattle.std.specs.List.{AllByRecursion};
ghost use Rattle.grain_program.specs.View.{view_of};
ghost use Rattle.grain_program.specs.Effects.{leads, switch_leads};
ghost use Rattle.grain_program.specs.Shapes.{arrival, arrivals};
ghost use Rattle.grain_program.specs.Typing.{nothing_seen, with_lowest, arrive, arrive_all, take_at, analyse_chunk, Gives, Ready, IsAnalysable};
ghost use Rattle.grain_program.specs.Numbered.{shape_of, state_of};
ghost use Rattle.grain_program.specs.Reached.{AreReached};

use crate::code::bytes::decode;
use crate::code::effects::{Effect, Flow};
use crate::code::parts::{Chunk, Parts};
use crate::verifier::handlers::HandlerLists;
use crate::verifier::reached::Reached;
use crate::verifier::refusals::Refusal;
use crate::verifier::shapes::{NumberedShape, Shapes};
use crate::verifier::targets::{lowest_of, ordered_targets};
use crate::verifier::waiting::Waiting;
use grain_value::OutOfMemory;
use std::alloc::Global;
use std::collections::BTreeSet;
use std::marker::Model;

/// The shapes that are known, the addresses that wait to be taken, and the lists of handlers.
#[derive(Drop)]
pub struct HeightAnalysis {
    shapes: Shapes,
    waiting: Waiting,
    handlers: HandlerLists,
}

impl Model for HeightAnalysis {
    ghost use Rattle.grain_program.specs.Numbered.{Search, AreNumbered};

    ghost Value = { Search };

    ghost view = { λ s. record {
      shapes = s.shapes;
      waiting = s.waiting;
      lists = s.handlers;
    } };

    ghost invariant = { λ s. AreNumbered s.handlers s.shapes };
}

impl HeightAnalysis {
    /// Nothing is known at len addresses, and none waits.
    pub fn new(alloc: Global, len: usize) -> Result<HeightAnalysis, OutOfMemory>
        ensures { IfOk result (λ analysis. state_of analysis ≡ nothing_seen len) }
    {
        let shapes = Shapes::new(alloc, len)?;
        Ok(HeightAnalysis {
            shapes,
            waiting: Waiting::new(alloc),
            handlers: HandlerLists::new(alloc),
        })
    }

    /// The shape comes to the address, which waits unless it was known.
    fn arrive(&mut self, shape: NumberedShape, address: usize) -> Result<(), Refusal>
        requires within { address < length self.old.shapes }
        requires small { shape.height < 2 ^ 16 }
        requires numbered { shape.list ≤ length self.old.lists }
        ensures length_same { length self.new.shapes ≡ length self.old.shapes }
        ensures lists_same { self.new.lists ≡ self.old.lists }
        ensures exact { Gives (state_of self.new) result (arrive (shape_of self.old.lists shape)
            (state_of self.old) address) }
    {
        if let Some(known) = self.shapes.get(address) {
            return match self.handlers.clash(known, shape, address) {
                Some(refusal) => Err(refusal),
                None => Ok(()),
            };
        }
        self.waiting.insert(address)?;
        self.shapes.put(address, shape);
        Ok(())
    }

    /// The shape comes to each of the addresses, to the lowest first.
    fn arrive_at(&mut self, shape: NumberedShape, mut targets: BTreeSet<u32>) -> Result<(), Refusal>
        requires within { AllByRecursion (λ b. b < length self.old.shapes) targets.keys }
        requires small { shape.height < 2 ^ 16 }
        requires numbered { shape.list ≤ length self.old.lists }
        ensures length_same { length self.new.shapes ≡ length self.old.shapes }
        ensures lists_same { self.new.lists ≡ self.old.lists }
        ensures exact { Gives (state_of self.new) result (arrive_all (map (λ a. arrival a
            (shape_of self.old.lists shape)) targets.keys) (state_of self.old)) }
    {
        while let Some(target) = targets.pop_first() {
            self.arrive(shape, target as usize)?;
        }
        Ok(())
    }

    /// The shape comes to each target of the switch at the index, to the lowest first.
    fn arrive_at_targets(
        &mut self,
        alloc: Global,
        parts: &Parts,
        reached: &mut Reached,
        shape: NumberedShape,
        index: u16,
    ) -> Result<(), Refusal>
        requires reached { AreReached (view_of parts.now) reached.old (state_of self.old) }
        requires within { AllByRecursion (λ b. b < length self.old.shapes)
            (switch_leads (view_of parts.now) index) }
        requires small { shape.height < 2 ^ 16 }
        requires numbered { shape.list ≤ length self.old.lists }
        ensures length_same { length self.new.shapes ≡ length self.old.shapes }
        ensures exact { Gives (state_of self.new) result (arrive_all (map (λ a. arrival a
            (shape_of self.old.lists shape)) (switch_leads (view_of parts.now) index))
            (state_of self.old)) }
        ensures reached { IfOk result (λ _.
            AreReached (view_of parts.now) reached.new (state_of self.new)) }
    {
        let Some(switch) = parts.switches.get(index as usize) else {
            return Ok(());
        };
        if let Some(lowest) = reached.lowest(index) {
            return self.arrive(shape, lowest as usize);
        }
        let Ok(targets) = ordered_targets(alloc, switch) else {
            return Err(Refusal::Memory);
        };
        let lowest = lowest_of(&targets);
        self.arrive_at(shape, targets)?;
        reached.note(index, lowest);
        Ok(())
    }

    /// The shape, which an instruction of this effect leaves, comes wherever it leads, to the lower
    /// address first.
    fn arrive_by(
        &mut self,
        alloc: Global,
        parts: &Parts,
        reached: &mut Reached,
        shape: NumberedShape,
        effect: Effect,
        next: usize,
    ) -> Result<(), Refusal>
        requires reached { AreReached (view_of parts.now) reached.old (state_of self.old) }
        requires within { AllByRecursion (λ b. b < length self.old.shapes)
            (leads (view_of parts.now) effect.flow next) }
        requires small { shape.height < 2 ^ 16 }
        requires numbered { shape.list ≤ length self.old.lists }
        ensures length_same { length self.new.shapes ≡ length self.old.shapes }
        ensures exact { Gives (state_of self.new) result (arrive_all (arrivals (view_of parts.now)
            effect next (shape_of self.old.lists shape)) (state_of self.old)) }
        ensures reached { IfOk result (λ _.
            AreReached (view_of parts.now) reached.new (state_of self.new)) }
    {
        let other = shape.at_target(effect);
        match effect.flow {
            Flow::Next => self.arrive(shape, next),
            Flow::Jump(target) => self.arrive(other, target as usize),
            Flow::Branch(target) => {
                let target = target as usize;
                if target < next {
                    self.arrive(other, target)?;
                    self.arrive(shape, next)
                } else {
                    self.arrive(shape, next)?;
                    self.arrive(other, target)
                }
            }
            Flow::Switch(index) => self.arrive_at_targets(alloc, parts, reached, other, index),
            Flow::End => Ok(()),
        }
    }

    /// The lowest address that waits, which waits no longer. Where none waits, nothing changes.
    fn lowest(&mut self) -> Option<usize>
        ensures { MatchOption result ((self.old.waiting ≡ []) × (self.new ≡ self.old))
            (λ a. state_of self.old ≡ with_lowest a (state_of self.new)) }
    {
        self.waiting.pop_lowest()
    }

    /// Takes the instruction at the address, in a chunk whose frame may have max operands.
    fn take(
        &mut self,
        alloc: Global,
        parts: &Parts,
        reached: &mut Reached,
        max: u16,
        address: usize,
    ) -> Result<(), Refusal>
        requires ready { Ready (view_of parts.now) (state_of self.old).shapes address }
        requires reached { AreReached (view_of parts.now) reached.old (state_of self.old) }
        ensures reached { IfOk result (λ _.
            AreReached (view_of parts.now) reached.new (state_of self.new)) }
        ensures exact { Gives (state_of self.new) result (take_at (view_of parts.now) max address (state_of
            self.old)) }
    {
        let Some((op, width)) = decode(&parts.code, address) else {
            unreachable!()
        };
        let Some(shape) = self.shapes.get(address) else {
            unreachable!()
        };
        let effect = Effect::of(parts, op);
        match self.handlers.shape_after(shape, max, address, effect) {
            Ok(after) => { self.arrive_by(alloc, parts, reached, after, effect, address + width) }
            Err(refusal) => Err(refusal),
        }
    }

    /// Takes the instructions of the chunk from its entry on, the lowest waiting address each time,
    /// until none waits.
    pub fn analyse_chunk(
        &mut self,
        alloc: Global,
        parts: &Parts,
        reached: &mut Reached,
        chunk: Chunk,
    ) -> Result<(), Refusal>
        requires analysable { IsAnalysable (view_of parts.now) chunk (state_of self.old) }
        requires reached { AreReached (view_of parts.now) reached.old (state_of self.old) }
        ensures reached { IfOk result (λ _.
            AreReached (view_of parts.now) reached.new (state_of self.new)) }
        ensures exact { Gives (state_of self.new) result (analyse_chunk (view_of parts.now) chunk
            (state_of self.old)) }
        ensures rest { IfOk result (λ _. (self.new.waiting ≡ []) × (length self.new.shapes ≡ length
            parts.now.code)) }
    {
        let bare = NumberedShape {
            height: 0,
            cursors: 0,
            list: 0,
        };
        self.arrive(bare, chunk.entry as usize)?;
        while let Some(address) = self.lowest() {
            self.take(alloc, parts, reached, chunk.max_stack, address)?;
        }
        Ok(())
    }
}
