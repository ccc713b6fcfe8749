//! Literals of arrays and maps.

ghost use Rattle.std.specs.Prelude.{◌≡◌, ◌<◌, ◌≤◌, ◌+◌, ◌∷◌, [], List, length, Ok, Some, IfOk, is_some, true, slice_get};
ghost use Rattle.grain_value.specs.Cells.{flat};
ghost use Rattle.grain_value.specs.Maps.{Entries, put_entry};
ghost use Rattle.grain_value.specs.Operands.{arguments, under};
ghost use Rattle.grain_value.specs.declared.values.Dynamic.{Dynamic};
ghost use Rattle.grain_value.specs.declared.values.Held.{Held};
ghost use Rattle.grain_value.specs.View.{tree};
ghost use Rattle.grain_value.specs.Writing.{type_name_of};
ghost use Rattle.grain_fault.specs.Problems.{Plain, Malformed};
ghost use Rattle.grain_fault.specs.declared.faults.MalformedKind.TheVariants as kind;
ghost use Rattle.grain_program.specs.View.{View, position_of};
ghost use Rattle.grain_global.specs.declared.engines.Engine.{Engine};
ghost use Rattle.grain_means.specs.Means.{setup};
ghost use Rattle.grain_means.specs.Rules.{PairsAre, flat_all, literal_made, operand_under, pairs_of, trees_in};
ghost use Rattle.grain_frame.specs.Abstraction.{frame_in, Implements, Performs, Raises, Ready, setup_of, moment};
ghost use Rattle.grain_frame.specs.Literals.{PairsRead, ended};
ghost use Rattle.grain_value.specs.declared.values.Dynamic.TheVariants as dynamic;
ghost use Rattle.grain_program.specs.declared.code.instruction_set.Op.TheVariants as op;

use crate::activations::Activation;
use crate::contexts::Context;
use crate::runs::{Progress, Run};
use grain_fault::MalformedKind;
use grain_global::Steps;
use grain_host::Host;
use grain_value::{Array, Dynamic, Held, Map, OutOfMemory, Store, Text};
use std::sync::ledger::Ledger;

/// Why keys and values are no pairs of a map.
#[derive(Clone, Copy, Debug, PartialEq, Eq)]
enum Misfit {
    /// A cell comes first that is lent.
    Lent,
    /// The key at this index comes first, which is no text.
    Key(usize),
}

// Why these, `count` keys each before its value, are no pairs of a map, if they are none.
fn first_misfit(cells: &Store, held: &[Held], count: usize) -> Option<Misfit>
    requires { length held.now ≡ count + count }
    ensures { (es : Entries) → PairsRead cells.now held.now es result }
{
    'pairs: for pair in 0..count {
        let key = pair + pair;
        match held[key].value.flat(cells) {
            None => return Some(Misfit::Lent),
            Some(Dynamic::Text(_)) => {}
            Some(_) => return Some(Misfit::Key(key)),
        }
        if held[key + 1].value.flat(cells).is_none() {
            return Some(Misfit::Lent);
        }
    }
    None
}

// Puts a pair into a map. What stood there under the key goes.
fn put_pair(map: &mut Map, key: Text, value: Dynamic) -> Result<(), OutOfMemory>
    ensures { IfOk result (λ _. map.new ≡ put_entry key (tree value) map.old) }
{
    let _replaced = map.insert(key, value)?;
    Ok(())
}

impl<H: Host> Run<H> {
    // A literal of that many elements is over: if it has some, its total goes, if there is one.
    fn end_literal(&mut self, count: usize)
        ensures { self.new ≡ record self.old {
          stacks = record self.old.stacks { totals = ended count self.old.stacks.totals };
        } }
    {
        if count > 0 && self.stacks.innermost_total().is_some() {
            let _total = self.stacks.pop_total();
        }
    }

    // A literal of that many elements is made, and is the last operand.
    fn literal_made<L: Ledger>(
        &mut self,
        steps: &mut Steps<L>,
        frame: &mut Activation,
        count: usize,
        value: Dynamic,
        next: usize,
    ) -> Progress
        requires inside { frame.old.base ≤ length self.old.scope }
        requires room { length self.old.stacks.operands < self.old.stacks.room }
        requires ahead { frame.old.address < next }
        ensures implements { (program : View) (engine : Engine) (host : H) →
            Implements (setup H.law program engine) (moment frame.old self.old steps.old host)
            (λ m place w. literal_made m count value self.old.stacks.operands next
            (frame_in frame.old self.old place) w) (next ∷ []) 0 1 self.old.stacks.handlers
            (Ok result) (moment frame.new self.new steps.new host) }
    {
        self.end_literal(count);
        self.push_on(steps, frame, value, next)
    }

    // `make_array`: an array of the last `count` operands.
    pub(crate) fn make_array<L: Ledger>(
        &mut self,
        context: Context<'_>,
        steps: &mut Steps<L>,
        frame: &mut Activation,
        count: u16,
        next: usize,
    ) -> Result<Progress, OutOfMemory>
        requires ready { Ready frame.old self.old (op.MakeArray count) next }
        ensures performs { (host : H) →
            Performs (setup_of H.law context.entry) (moment frame.old self.old steps.old host)
            (op.MakeArray count) next result (moment frame.new self.new steps.new host) }
    {
        let count = usize::from(count);
        if !self.are_readable(count) {
            return self.data_race(context, steps, frame.address, "");
        }
        let array = self.take_array(count)?;
        Ok(self.literal_made(steps, frame, count, Dynamic::Array(array), next))
    }

    // Takes the last `count` operands, none of which is a lent cell, as an array.
    fn take_array(&mut self, count: usize) -> Result<Array, OutOfMemory>
        requires there { count ≤ length self.old.stacks.operands }
        requires readable { is_some
            (flat_all self.old.cells (arguments count self.old.stacks.operands)) ≡ true }
        ensures taken { (args : List Held) →
            flat_all self.old.cells (arguments count self.old.stacks.operands) ≡ Some args →
            IfOk result (λ array. array ≡ trees_in args) }
        ensures left { IfOk result (λ _. self.new ≡ record self.old {
          stacks =
              record self.old.stacks { operands = under count self.old.stacks.operands };
        }) }
        ensures others { self.new ≡ record self.old {
          stacks =
              record self.old.stacks { operands = self.new.stacks.operands };
        } }
    {
        let mut taken = self.stacks.take_off(self.alloc, count)?;
        let mut array = Array::new(self.alloc);
        'elements: while let Some(held) = taken.pop() {
            array.push(self.flat_value(held.value)?)?;
        }
        Ok(array)
    }

    // `make_map`: the map under the last `count` pairs of a key and a value, with these pairs.
    pub(crate) fn make_map<L: Ledger>(
        &mut self,
        context: Context<'_>,
        steps: &mut Steps<L>,
        frame: &mut Activation,
        count: u16,
        next: usize,
    ) -> Result<Progress, OutOfMemory>
        requires ready { Ready frame.old self.old (op.MakeMap count) next }
        ensures performs { (host : H) →
            Performs (setup_of H.law context.entry) (moment frame.old self.old steps.old host)
            (op.MakeMap count) next result (moment frame.new self.new steps.new host) }
    {
        let pairs = usize::from(count);
        match self.stacks.peek(pairs + pairs).value.flat(&self.cells) {
            None => return self.data_race(context, steps, frame.address, ""),
            Some(Dynamic::Map(_)) => {}
            Some(_) => {
                return self.template_not_map(context, steps, frame.address, pairs + pairs);
            }
        }
        match self.first_misfit(pairs) {
            None => {}
            Some(Misfit::Lent) => return self.data_race(context, steps, frame.address, ""),
            Some(Misfit::Key(index)) => {
                return self.key_not_text(context, steps, frame.address, pairs, index);
            }
        }
        let map = self.take_map(count)?;
        Ok(self.literal_made(steps, frame, pairs, Dynamic::Map(map), next))
    }

    // The fault that what stands under the last `above` operands is no map.
    #[cold]
    #[inline(never)]
    fn template_not_map<L: Ledger>(
        &mut self,
        context: Context<'_>,
        steps: &mut Steps<L>,
        address: usize,
        above: usize,
    ) -> Result<Progress, OutOfMemory>
        requires there { above < length self.old.stacks.operands }
        requires readable { is_some (flat self.old.cells
            (operand_under above self.old.stacks.operands).value) ≡ true }
        ensures { (v : Dynamic) → flat self.old.cells
            (operand_under above self.old.stacks.operands).value ≡ Some v →
            Raises self.old steps.old (Plain (Malformed (kind.TemplateNotMap (type_name_of v)))
            (position_of context.entry.program.now address)) result self.new steps.new }
    {
        let kind = match self.stacks.peek(above).value.flat(&self.cells) {
            Some(value) => value.own_type_name(self.alloc)?,
            None => unreachable!(),
        };
        let kind = MalformedKind::TemplateNotMap { kind };
        Ok(self.malformed(context, steps, address, kind))
    }

    // Why the last operands, `count` keys each before its value, are no pairs of a map.
    fn first_misfit(&self, count: usize) -> Option<Misfit>
        requires { count + count ≤ length self.now.stacks.operands }
        ensures { (es : Entries) → PairsRead self.now.cells
            (arguments (count + count) self.now.stacks.operands) es result }
    {
        let operands = self.stacks.frame_operands();
        first_misfit(
            &self.cells,
            &operands[operands.len() - (count + count)..],
            count,
        )
    }

    // The key at this index of the last operands is no text.
    #[cold]
    #[inline(never)]
    fn key_not_text<L: Ledger>(
        &mut self,
        context: Context<'_>,
        steps: &mut Steps<L>,
        address: usize,
        count: usize,
        index: usize,
    ) -> Result<Progress, OutOfMemory>
        requires there { count + count ≤ length self.old.stacks.operands }
        requires key { (h : Held) × (k : Dynamic)
            × (slice_get (arguments (count + count) self.old.stacks.operands) index ≡ Some h)
            × (flat self.old.cells h.value ≡ Some k) }
        ensures { (h : Held) (k : Dynamic) →
            slice_get (arguments (count + count) self.old.stacks.operands) index ≡ Some h →
            flat self.old.cells h.value ≡ Some k →
            Raises self.old steps.old (Plain (Malformed (kind.KeyNotText (type_name_of k)))
            (position_of context.entry.program.now address)) result self.new steps.new }
    {
        let operands = self.stacks.frame_operands();
        let held = &operands[operands.len() - (count + count) + index];
        let kind = match held.value.flat(&self.cells) {
            Some(key) => key.own_type_name(self.alloc)?,
            None => unreachable!(),
        };
        let kind = MalformedKind::KeyNotText { kind };
        Ok(self.malformed(context, steps, address, kind))
    }

    // Takes the last operands, `count` keys each before its value, and the map under them, with these
    // pairs.
    fn take_map(&mut self, count: u16) -> Result<Map, OutOfMemory>
        requires there { count + count < length self.old.stacks.operands }
        requires template { (es : Entries)
            × (flat self.old.cells (operand_under (count + count) self.old.stacks.operands).value
            ≡ Some (dynamic.Map es)) }
        requires pairs { (es : Entries) → (ds : Entries) × (pairs_of self.old.cells
            (arguments (count + count) self.old.stacks.operands) es ≡ PairsAre ds) }
        ensures taken { (es ds : Entries) →
            flat self.old.cells (operand_under (count + count) self.old.stacks.operands).value
            ≡ Some (dynamic.Map es) →
            pairs_of self.old.cells (arguments (count + count) self.old.stacks.operands) es
            ≡ PairsAre ds → IfOk result (λ map. map ≡ ds) }
        ensures left { IfOk result (λ _. self.new ≡ record self.old {
          stacks =
              record self.old.stacks {
                operands =
                    under (count + count + 1) self.old.stacks.operands;
              };
        }) }
        ensures others { self.new ≡ record self.old {
          stacks =
              record self.old.stacks { operands = self.new.stacks.operands };
        } }
    {
        let count = usize::from(count);
        let mut taken = self.stacks.take_off(self.alloc, count + count)?;
        let Dynamic::Map(mut map) = self.take_flat()? else {
            unreachable!();
        };
        'pairs: while let Some(key) = taken.pop() {
            let Some(held) = taken.pop() else {
                unreachable!();
            };
            let Dynamic::Text(key) = self.flat_value(key.value)? else {
                unreachable!();
            };
            let value = self.flat_value(held.value)?;
            put_pair(&mut map, key, value)?;
        }
        Ok(map)
    }
}
