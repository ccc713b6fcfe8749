//! The last operands go to the end of a scope, as the arguments of a call.

ghost use Rattle.std.specs.Prelude.{◌≡◌, ◌<◌, ◌≤◌, ◌+◌, ◌-◌, ◌++◌, ◌∷◌, [], length, take, drop, is_ok, OnErr, All, slice_set, if◌then◌else◌};
ghost use Rattle.grain_value.specs.Scopes.{new_entry};
ghost use Rattle.grain_value.specs.Operands.{under, read_write, arguments, bound_entries};
ghost use Rattle.grain_value.specs.declared.values.Dynamic.{Dynamic};
ghost use Rattle.grain_stack.specs.Filled.{operand_at};
ghost use Rattle.grain_stack.specs.Regained.{regained};

use super::Slots;
use grain_value::{Dynamic, List, Name, OutOfMemory, Scope};

impl Slots {
    /// Moves the values of the last operands, as many as there are parameters, to the end of the
    /// scope, where they can be written and have the names of the pool at these indices. After want
    /// of memory the operands and the scope are as they were.
    #[inline(always)]
    pub fn bind_arguments(
        &mut self,
        params: &[u32],
        names: &List<Name>,
        scope: &mut Scope,
    ) -> Result<(), OutOfMemory>
        requires there { length params.now ≤ length self.old.operands }
        requires named { All (λ n. n < length names.now) params.now }
        ensures scope { scope.new ≡ (if is_ok result
            then scope.old ++ bound_entries names.now params.now
            (arguments (length params.now) self.old.operands)
            else scope.old) }
        ensures operands { self.new ≡ (if is_ok result
            then record self.old { operands = under (length params.now) self.old.operands }
            else self.old) }
    {
        let first = self.len() - params.len();
        'bind: for (index, param) in params.iter().enumerate() {
            match self.move_to(first + index, names.at(*param as usize), scope) {
                Ok(()) => {}
                Err(e) => {
                    self.give_back(first, index, scope);
                    return Err(e);
                }
            }
        }
        self.drop_last_of(params.len());
        Ok(())
    }

    // Moves the value of the operand at an index to the end of the scope, where it can be written
    // and has a shared name. What value the operand then has is not said. After want of memory the
    // operands and the scope are as they were.
    #[inline(always)]
    fn move_to(&mut self, index: usize, name: &Name, scope: &mut Scope) -> Result<(), OutOfMemory>
        requires there { index < length self.old.operands }
        ensures scope { scope.new ≡ (if is_ok result
            then scope.old
            ++ new_entry name.now (read_write (operand_at index self.old.operands).value) ∷ []
            else scope.old) }
        ensures others { (value : Dynamic) × (self.new ≡ record self.old {
          operands =
              slice_set self.old.operands index
              (record (operand_at index self.old.operands) { value = value });
        }) }
        ensures refused { OnErr result (self.new ≡ self.old) }
    {
        scope.push_moved(name, &mut self.slots[index])
    }

    // Moves the values of the last `count` entries of the scope, which go, back to the operands
    // from an index on.
    #[cold]
    #[inline(never)]
    fn give_back(&mut self, first: usize, count: usize, scope: &mut Scope)
        requires there { first + count ≤ length self.old.operands }
        requires entries { count ≤ length scope.old }
        ensures operands { self.new ≡ record self.old {
          operands =
              regained first (drop (length scope.old - count) scope.old) self.old.operands;
        } }
        ensures scope { scope.new ≡ take (length scope.old - count) scope.old }
    {
        let base = scope.len() - count;
        let height = self.len();
        prove!(first <= height && count <= height - first);
        'back: for index in 0..count {
            match scope.get_mut(base + index) {
                Some(held) => self.put_value(first + index, held.value.take()),
                None => unreachable!(),
            }
        }
        scope.rewind(base);
    }

    // Writes the value of the operand at an index.
    fn put_value(&mut self, index: usize, value: Dynamic)
        requires there { index < length self.old.operands }
        ensures { self.new ≡ record self.old {
          operands =
              slice_set self.old.operands index
              (record (operand_at index self.old.operands) { value = value });
        } }
    {
        self.slots[index].value = value;
    }
}
