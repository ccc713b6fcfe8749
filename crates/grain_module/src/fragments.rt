//! Fragments of a program.

ghost use Rattle.std.specs.Prelude.{◌≡◌, ◌==◌, ◌^◌, ◌<◌, ◌++◌, ◌∷◌, [], length, is_ok, if◌then◌else◌, option_map, slice_get, IfOk};
ghost use Rattle.grain_module.specs.FragmentView.{item_tree};

use grain_value::{MOST_LEVELS, OutOfMemory};
use std::alloc::Global;
use std::marker::Model;

/// A fragment of a program, which is interpreted. Its indices are those of the program's pools
/// (`Pools`); by itself a fragment says nothing of how long these are.
#[cycle(fragments)]
#[derive(Drop)]
pub enum Fragment {
    /// The constant at the index in the pool of constants.
    Literal(u32),
    /// The variable whose name stands at the index in the pool of names.
    Name(u32),
    /// `this`: the value on which the running function was called.
    This,
    /// Items, one after the other.
    Block(Items),
}

/// An item of a block.
#[cycle(fragments)]
#[derive(Drop)]
pub enum FragmentItem {
    /// Binds the name at the index in the pool of names to the fragment's value.
    Let(u32, Fragment),
    /// Evaluates the fragment.
    Eval(Fragment),
}

/// The items of a block. Clauses see the list of their trees.
#[cycle(fragments)]
#[derive(Drop)]
pub struct Items {
    items: Vec<FragmentItem>,
    // how many blocks stand inside one another here, this one counted, at most
    levels: usize,
}

impl Model for Items {
    ghost use Rattle.std.specs.Prelude.{List};
    ghost use Rattle.grain_module.specs.FragmentTree.{ItemTree, pack_items, item_weights};
    ghost use Rattle.grain_module.specs.laws.FragmentCode.{coded_items};

    ghost Value = { List ItemTree };

    ghost coded = { coded_items };

    ghost use Rattle.grain_module.specs.FragmentView.{item_trees};

    ghost view = { λ a. item_trees a.items.items };

    ghost size = { λ ts. item_weights (pack_items ts) };

    ghost use Rattle.grain_module.specs.laws.FragmentFalls.{depth_le-item_weights};

    ghost size_decreases = { λ a h. depth_le-item_weights a.items.items };
}

impl Fragment {
    // How many blocks stand inside one another here, at most.
    fn levels(&self) -> usize {
        match self {
            Fragment::Block(items) => items.levels,
            _ => 0,
        }
    }

    /// An equal fragment. `OutOfMemory` where there is no memory for it.
    #[cycle(copy)]
    pub fn copy(&self, alloc: Global) -> Result<Fragment, OutOfMemory>
        ensures { IfOk result (λ fragment. fragment ≡ self.now) }
    {
        match self {
            Fragment::Literal(index) => Ok(Fragment::Literal(*index)),
            Fragment::Name(index) => Ok(Fragment::Name(*index)),
            Fragment::This => Ok(Fragment::This),
            Fragment::Block(items) => Ok(Fragment::Block(items.copy(alloc)?)),
        }
    }
}

impl FragmentItem {
    // How many blocks stand inside one another here, at most.
    fn levels(&self) -> usize {
        match self {
            FragmentItem::Let(_, fragment) => fragment.levels(),
            FragmentItem::Eval(fragment) => fragment.levels(),
        }
    }

    /// An equal item. `OutOfMemory` where there is no memory for it.
    #[cycle(copy)]
    pub fn copy(&self, alloc: Global) -> Result<FragmentItem, OutOfMemory>
        ensures { IfOk result (λ item. item ≡ self.now) }
    {
        match self {
            FragmentItem::Let(index, fragment) => {
                Ok(FragmentItem::Let(*index, fragment.copy(alloc)?))
            }
            FragmentItem::Eval(fragment) => Ok(FragmentItem::Eval(fragment.copy(alloc)?)),
        }
    }
}

impl Items {
    /// No items. It takes no memory.
    pub fn new(alloc: Global) -> Items
        ensures { result ≡ [] }
    {
        Items {
            items: Vec::new(alloc),
            levels: 1,
        }
    }

    /// How many items there are.
    pub fn len(&self) -> usize
        ensures value { result ≡ length self.now }
        ensures small { result < 2 ^ 63 }
    {
        self.items.len()
    }

    /// Whether there are no items.
    pub fn is_empty(&self) -> bool
        ensures { result ≡ (length self.now == 0) }
    {
        self.items.is_empty()
    }

    /// The item at the index, if there is one.
    pub fn get(&self, index: usize) -> Option<&FragmentItem>
        ensures { option_map (λ item. item_tree item.now) result ≡ slice_get self.now index }
    {
        self.items.get(index)
    }

    /// Puts an item at the end. After want of memory, and where the item nests too deep
    /// (`MOST_LEVELS`), the list is as it was.
    pub fn push(&mut self, item: FragmentItem) -> Result<(), OutOfMemory>
        ensures { self.new ≡ (if is_ok result then self.old ++ item_tree item ∷ [] else self.old) }
    {
        let levels = item.levels().saturating_add(1).max(self.levels);
        if levels > MOST_LEVELS {
            return Err(OutOfMemory);
        }
        self.items.push(item)?;
        self.levels = levels;
        Ok(())
    }

    /// An equal list. `OutOfMemory` where there is no memory for it.
    #[cycle(copy)]
    pub fn copy(&self, alloc: Global) -> Result<Items, OutOfMemory>
        ensures { IfOk result (λ items. items ≡ self.now) }
    {
        let mut items = Vec::with_capacity(alloc, self.items.len())?;
        for item in &self.items {
            let item = item.copy(alloc)?;
            items.push(item)?;
        }
        let levels = self.levels;
        Ok(Items { items, levels })
    }
}
