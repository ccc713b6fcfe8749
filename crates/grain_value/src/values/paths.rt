//! Places inside a value, by the way that leads there.

ghost use Rattle.std.specs.Prelude.{◌≡◌, ◌<◌, ◌⊎◌, ◌∷◌, length, Ok, Err, IfOk, IfErr};
ghost use Rattle.grain_value.specs.Tree.{Tree};
ghost use Rattle.grain_value.specs.View.{tree};
ghost use Rattle.grain_value.specs.Paths.{at, child, put, put_value, Leads, reported};
ghost use Rattle.grain_value.specs.declared.values.Dynamic.TheVariants as dynamic;
ghost use Rattle.grain_value.specs.declared.values.paths.PathStep.TheVariants as step;
ghost use Rattle.grain_value.specs.declared.values.value_faults.ValueFault.TheVariants as fault;

use super::{Array, Dynamic, Map, ValueFault};
use crate::lists::List;
use crate::texts::Text;
use std::alloc::Global;
use std::mem;

/// One step down into a value: to an element of an array, or to the value at a key of a map.
#[derive(Drop)]
pub enum PathStep {
    /// The element at this index.
    Index(usize),
    /// The value at this key.
    Key(Text),
}

/// The steps from a value to one inside it. The empty path leads to the value itself.
pub type Path = List<PathStep>;

impl Dynamic {
    /// A copy of the value at the end of the path. Where the path leads nowhere: `Bounds` of an
    /// array without such an element, `NoKey` of a map without the key, `NotIndexable` where a step
    /// goes into any other value, or by a key into an array, or by an index into a map.
    pub fn read_at(&self, alloc: Global, path: &Path) -> Result<Dynamic, ValueFault>
        ensures value { IfOk result (λ value. at path.now (tree self.now) ≡ Ok (tree value)) }
        ensures missing { IfErr result (λ e.
            (e ≡ fault.Memory) ⊎ (at path.now (tree self.now) ≡ Err e)) }
    {
        let found = self.get_at(path)?;
        let copy = found.copy(alloc)?;
        Ok(copy)
    }

    /// The value at the end of the path, where it stands. Where the path leads nowhere, why: as with
    /// `read_at`. It takes no memory.
    pub fn get_at(&self, path: &Path) -> Result<&Dynamic, ValueFault>
        ensures value { IfOk result (λ value. at path.now (tree self.now) ≡ Ok (tree value.now)) }
        ensures missing { IfErr result (λ e. at path.now (tree self.now) ≡ Err e) }
    {
        self.at_path(path.as_slice())
    }

    // The value at the end of the steps.
    fn at_path(&self, steps: &[PathStep]) -> Result<&Dynamic, ValueFault>
        ensures value { IfOk result (λ value. at steps.now (tree self.now) ≡ Ok (tree value.now)) }
        ensures missing { IfErr result (λ e. at steps.now (tree self.now) ≡ Err e) }
    {
        let mut target = self;
        for step in steps {
            target = target.child(step)?;
        }
        Ok(target)
    }

    // The value one step down.
    fn child(&self, step: &PathStep) -> Result<&Dynamic, ValueFault>
        ensures value { IfOk result (λ value. child step.now (tree self.now) ≡ Ok (tree value.now)) }
        ensures missing { IfErr result (λ e. child step.now (tree self.now) ≡ Err e) }
    {
        match step {
            PathStep::Index(index) => match self {
                Dynamic::Array(array) => match array.get(*index) {
                    Some(value) => Ok(value),
                    None => Err(no_element(array.len(), *index)),
                },
                _ => Err(ValueFault::NotIndexable),
            },
            PathStep::Key(key) => match self {
                Dynamic::Map(map) => match map.get(key.as_str()) {
                    Some(value) => Ok(value),
                    None => Err(ValueFault::NoKey),
                },
                _ => Err(ValueFault::NotIndexable),
            },
        }
    }

    /// Takes the value at the end of the path, and leaves unit there. It takes no memory.
    pub fn take_at(&mut self, path: &Path) -> Dynamic
        requires { Leads path.now (tree self.old) }
        ensures taken { at path.now (tree self.old) ≡ Ok (tree result) }
        ensures left { self.new ≡ put_value path.now dynamic.Unit self.old }
    {
        self.put_at(path, Dynamic::Unit)
    }

    /// Puts a value at the end of the path, and gives the one that stood there. It takes no memory,
    /// and so it does not refuse a value that then nests too deep. A caller sees that the value has no
    /// more than `MOST_LEVELS` levels, as every copy has, and the path no more steps: then what is made
    /// has no more than twice as many levels.
    pub fn put_at(&mut self, path: &Path, value: Dynamic) -> Dynamic
        requires { Leads path.now (tree self.old) }
        ensures taken { at path.now (tree self.old) ≡ Ok (tree result) }
        ensures left { self.new ≡ put_value path.now value self.old }
    {
        self.put_steps(path.as_slice(), value)
    }

    #[cycle(put)]
    fn put_steps(&mut self, steps: &[PathStep], value: Dynamic) -> Dynamic
        requires { Leads steps.now (tree self.old) }
        ensures taken { at steps.now (tree self.old) ≡ Ok (tree result) }
        ensures left { tree self.new ≡ put steps.now (tree value) (tree self.old) }
    {
        match steps {
            [] => mem::replace(self, value),
            [step, rest @ ..] => match step {
                PathStep::Index(index) => match self {
                    Dynamic::Array(array) => array.put_below(*index, rest, value),
                    _ => unreachable!(),
                },
                PathStep::Key(key) => match self {
                    Dynamic::Map(map) => map.put_below(key.as_str(), rest, value),
                    _ => unreachable!(),
                },
            },
        }
    }
}

impl Array {
    #[cycle(put)]
    fn put_below(&mut self, index: usize, rest: &[PathStep], value: Dynamic) -> Dynamic
        requires { Leads (step.Index index ∷ rest.now) (tree (dynamic.Array self.old)) }
        ensures taken { at (step.Index index ∷ rest.now) (tree (dynamic.Array self.old))
            ≡ Ok (tree result) }
        ensures left { tree (dynamic.Array self.new)
            ≡ put (step.Index index ∷ rest.now) (tree value) (tree (dynamic.Array self.old)) }
    {
        self.levels = levels_above(self.levels, rest, &value);
        self.values[index].put_steps(rest, value)
    }
}

impl Map {
    #[cycle(put)]
    fn put_below(&mut self, key: &str, rest: &[PathStep], value: Dynamic) -> Dynamic
        requires { Leads (step.Key key.now ∷ rest.now) (tree (dynamic.Map self.old)) }
        ensures taken { at (step.Key key.now ∷ rest.now) (tree (dynamic.Map self.old))
            ≡ Ok (tree result) }
        ensures left { tree (dynamic.Map self.new)
            ≡ put (step.Key key.now ∷ rest.now) (tree value) (tree (dynamic.Map self.old)) }
    {
        self.levels = levels_above(self.levels, rest, &value);
        match self.pairs.get_mut(key) {
            Some(inner) => inner.put_steps(rest, value),
            None => unreachable!(),
        }
    }
}

// How many levels an array or map of `levels` levels has, at most, once the value stands below it, at the
// end of the rest of a path.
fn levels_above(levels: usize, rest: &[PathStep], value: &Dynamic) -> usize {
    value
        .levels()
        .saturating_add(rest.len())
        .saturating_add(1)
        .max(levels)
}

// The fault that an array of this length has no element at the index.
fn no_element(length: usize, index: usize) -> ValueFault
    ensures { result ≡ fault.Bounds length (reported index) }
{
    let index = i64::try_from(index).unwrap_or(i64::MAX);
    ValueFault::Bounds { length, index }
}
