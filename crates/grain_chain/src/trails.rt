//! The roots of a walk, and its place in the newest one. The first root is the value at which the walk
//! began. The others are values that getters, indexers and methods gave, units of missing keys, and
//! bytes, characters and bits.

ghost use Rattle.std.specs.Prelude.{◌≡◌, ◌++◌, ◌∷◌, [], Ok, is_ok, IfOk, IfErr, if◌then◌else◌};
ghost use Rattle.grain_value.specs.View.{tree};
ghost use Rattle.grain_value.specs.Paths.{at, Leads};
ghost use Rattle.grain_value.specs.Parts.{with_part};
ghost use Rattle.grain_value.specs.declared.values.Dynamic.{Dynamic as AnyValue};
ghost use Rattle.grain_ops.specs.Operators.{assignment};
ghost use Rattle.grain_means.specs.Places.{put_held};
ghost use Rattle.grain_value.specs.Maps.{Entries};
ghost use Rattle.grain_value.specs.declared.values.Dynamic.TheVariants as dynamic;
ghost use Rattle.grain_value.specs.declared.values.paths.PathStep.TheVariants as step;
ghost use Rattle.grain_means.specs.Walks.{with_key};
ghost use Rattle.grain_chain.specs.Standings.{oldest, Stands, WentBack, AssignedThere, PartPut, key_added};

use crate::origins::{Origin, OuterRoot};
use grain_ops::{AssignAnswer, assign};
use grain_value::{
    Dynamic, Held, Limits, MOST_LEVELS, OutOfMemory, Path, PathStep, Spot, Text, Token,
};
use std::alloc::Global;
use std::marker::Model;
use std::mem;

/// The roots of a walk, and the walk's place in the newest one. Each path leads to a value.
#[derive(Drop)]
pub(crate) struct Trail {
    // all roots but the newest, the oldest first
    outer: Vec<OuterRoot>,
    // the newest root, and the path to the walk's place in it
    here: Held,
    path: Path,
}

impl Model for Trail {
    ghost use Rattle.grain_chain.specs.Standings.{Standing, Leading};
    ghost use Rattle.std.specs.Coded.{codes};
    ghost use Rattle.grain_value.specs.laws.TreeCode.{coded_tree};

    ghost Value = { Standing };

    ghost coded = { Prim.hlevel (codes, coded_tree) };

    ghost view = { λ t. record { outer = t.outer.items; here = t.here; path = t.path } };

    ghost invariant = { λ t. Leading (record { outer = t.outer.items; here = t.here; path = t.path }) };
}

/// A root that the walk has left, the step that gave it, and where it came from.
#[derive(Drop)]
pub(crate) struct LeftRoot {
    pub(crate) root: Held,
    pub(crate) step: usize,
    pub(crate) origin: Origin,
}

impl Trail {
    /// A trail of one root, standing at the root itself. It takes no memory.
    pub(crate) fn new(alloc: Global, root: Held) -> Trail
        ensures { result ≡ record { outer = []; here = root; path = [] } }
    {
        Trail {
            outer: Vec::new(alloc),
            here: root,
            path: Path::new(alloc),
        }
    }

    /// The value at the walk's place.
    pub(crate) fn target(&self) -> &Dynamic
        ensures { Stands self.now result.now }
    {
        match self.here.value.get_at(&self.path) {
            Ok(value) => value,
            Err(_) => unreachable!(),
        }
    }

    /// Whether the newest root can only be read.
    pub(crate) fn is_read_only(&self) -> bool
        ensures { result ≡ self.now.here.read_only }
    {
        self.here.read_only
    }

    /// Puts a value at the walk's place.
    pub(crate) fn put(&mut self, value: Dynamic)
        ensures { self.new ≡ record self.old { here = put_held self.old.path value self.old.here } }
    {
        discard(self.here.value.put_at(&self.path, value));
    }

    /// Goes one step further down in the same root. It fails, and nothing changes, if memory runs out
    /// or if the place would be deeper than `MOST_LEVELS`.
    pub(crate) fn deepen(&mut self, step: PathStep) -> Result<(), OutOfMemory>
        requires { Leads (self.old.path ++ step ∷ []) (tree self.old.here.value) }
        ensures deeper { IfOk result (λ _.
            self.new ≡ record self.old { path = self.old.path ++ step ∷ [] }) }
        ensures unchanged { IfErr result (λ _. self.new ≡ self.old) }
    {
        if self.path.len() >= MOST_LEVELS {
            return Err(OutOfMemory);
        }
        self.path.push(step)
    }

    /// Adds the key, with unit, to the map at the walk's place, and goes to it. If memory runs out,
    /// nothing changes.
    pub(crate) fn add_key(&mut self, alloc: Global, key: Text) -> Result<(), OutOfMemory>
        requires { (entries : Entries) × Stands self.old (dynamic.Map entries) }
        ensures added { (value : AnyValue) → Stands self.old value →
            IfOk result (λ _. self.new ≡ key_added self.old key value) }
        ensures unchanged { IfErr result (λ _. self.new ≡ self.old) }
    {
        let path = path_with_key(alloc, &self.path, key.copy(alloc)?)?;
        let mut map = self.here.value.take_at(&self.path);
        let added = insert_key(&mut map, key);
        discard(self.here.value.put_at(&self.path, map));
        match added {
            Ok(()) => {
                self.path = path;
                Ok(())
            }
            Err(OutOfMemory) => Err(OutOfMemory),
        }
    }

    /// Puts a byte, a character or a bit back into the value at the walk's place, and says whether it
    /// has the type that fits there. If not, or if memory runs out, nothing changes.
    pub(crate) fn put_part(
        &mut self,
        alloc: Global,
        spot: Spot,
        part: &Dynamic,
    ) -> Result<bool, OutOfMemory>
        ensures { (value : AnyValue) × (Stands self.old value
            × PartPut self.old (with_part value spot part.now) result self.new) }
    {
        let mut target = self.here.value.take_at(&self.path);
        let is_put = target.put_part(alloc, spot, part);
        discard(self.here.value.put_at(&self.path, target));
        is_put
    }

    /// Does a built-in op-assignment to the value at the walk's place.
    pub(crate) fn assign(
        &mut self,
        alloc: Global,
        token: Token,
        value: &Dynamic,
        limits: &Limits,
    ) -> AssignAnswer
        ensures { (target : AnyValue) × (Stands self.old target
            × AssignedThere self.old result (assignment limits.now token target value.now) self.new) }
    {
        let mut target = self.here.value.take_at(&self.path);
        let answer = assign(alloc, token, &mut target, value, limits);
        discard(self.here.value.put_at(&self.path, target));
        answer
    }

    /// Goes into a new root, which this step gave. If memory runs out, nothing changes.
    pub(crate) fn enter_root(
        &mut self,
        alloc: Global,
        root: Held,
        step: usize,
        origin: Origin,
    ) -> Result<(), OutOfMemory>
        ensures entered { IfOk result (λ _. self.new ≡ record {
          outer = self.old.outer
              ++ record { root = self.old.here; path = self.old.path; step = step; origin = origin } ∷ [];
          here = root;
          path = [];
        }) }
        ensures unchanged { IfErr result (λ _. self.new ≡ self.old) }
    {
        let root = mem::replace(&mut self.here, root);
        let path = mem::replace(&mut self.path, Path::new(alloc));
        match self.outer.push(OuterRoot {
            root,
            path,
            step,
            origin,
        }) {
            Ok(()) => Ok(()),
            Err(refused) => {
                self.take_back(refused.value);
                Err(OutOfMemory)
            }
        }
    }

    // Makes a root that was put aside the newest again.
    fn take_back(&mut self, outer: OuterRoot)
        requires { Leads outer.path (tree outer.root.value) }
        ensures { self.new ≡ record self.old { here = outer.root; path = outer.path } }
    {
        let OuterRoot {
            root,
            path,
            step: _step,
            origin: _origin,
        } = outer;
        self.here = root;
        self.path = path;
    }

    /// Leaves the newest root, and goes back to the one before it. Returns None if it is the first.
    pub(crate) fn leave_root(&mut self) -> Option<LeftRoot>
        ensures { WentBack self.old result self.new }
    {
        let Some(outer) = self.outer.pop() else {
            return None;
        };
        let OuterRoot {
            root,
            path,
            step,
            origin,
        } = outer;
        let root = mem::replace(&mut self.here, root);
        self.path = path;
        Some(LeftRoot { root, step, origin })
    }

    /// Leaves all roots but the first.
    pub(crate) fn drop_newer_roots(&mut self)
        ensures { self.new ≡ record { outer = []; here = oldest self.old.outer self.old.here; path = [] } }
    {
        self.path.clear();
        if self.outer.is_empty() {
            return;
        }
        let first = self.outer.swap_remove(0);
        self.here = first.root;
        self.outer.clear();
    }

    /// Ends the trail, and gives its newest root.
    pub(crate) fn into_root(self) -> Held
        ensures { result ≡ self.here }
    {
        self.here
    }
}

// Drops a value that another has replaced.
fn discard(value: Dynamic) {
    drop(value);
}

// Adds a key, with unit, to a map. A value that is no map stays as it is.
fn insert_key(map: &mut Dynamic, key: Text) -> Result<(), OutOfMemory>
    ensures { map.new ≡ (if is_ok result then with_key key map.old else map.old) }
{
    match map {
        Dynamic::Map(entries) => {
            entries.insert(key, Dynamic::Unit)?;
            Ok(())
        }
        _ => Ok(()),
    }
}

// A copy of a path, with a key after it. It refuses more than `MOST_LEVELS` steps as if memory were out.
fn path_with_key(alloc: Global, path: &Path, key: Text) -> Result<Path, OutOfMemory>
    ensures { IfOk result (λ longer. longer ≡ path.now ++ step.Key key ∷ []) }
{
    if path.len() >= MOST_LEVELS {
        return Err(OutOfMemory);
    }
    let mut longer = Path::new(alloc);
    'copy: for step in path.as_slice() {
        longer.push(copied(alloc, step)?)?;
    }
    longer.push(PathStep::Key(key))?;
    Ok(longer)
}

// A copy of a step of a path.
fn copied(alloc: Global, step: &PathStep) -> Result<PathStep, OutOfMemory>
    ensures { IfOk result (λ copy. copy ≡ step.now) }
{
    match step {
        PathStep::Index(index) => Ok(PathStep::Index(*index)),
        PathStep::Key(key) => Ok(PathStep::Key(key.copy(alloc)?)),
    }
}
