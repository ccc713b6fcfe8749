//! The labels of a listing.

ghost use Rattle.std.specs.Prelude.{◌≡◌, [], is_ok, if◌then◌else◌};
ghost use Rattle.grain_words.specs.Labels.{address_of, with_label};

use grain_value::OutOfMemory;
use std::alloc::Global;
use std::collections::BTreeMap;
use std::marker::Model;

/// The labels of a listing, with their addresses.
#[derive(Drop)]
pub struct Labels {
    addresses: BTreeMap<String, u32>,
}

impl Model for Labels {
    ghost use Rattle.std.specs.Prelude.{ℕ, List};
    ghost use Rattle.grain_words.specs.LabelView.{labels_view};

    ghost Value = { List (List ℕ × ℕ) };

    ghost view = { λ l. labels_view l.addresses.entries };
}

impl Labels {
    /// No labels. It takes no memory.
    pub fn new(alloc: Global) -> Labels
        ensures { result ≡ [] }
    {
        Labels {
            addresses: BTreeMap::new(alloc),
        }
    }

    /// The label's address, where the label is known.
    pub fn get(&self, label: &str) -> Option<u32>
        ensures { result ≡ address_of label.now self.now }
    {
        self.addresses.get(label).copied()
    }

    /// Gives the label its address. Where memory is out, the labels are as they were.
    pub fn insert(&mut self, alloc: Global, label: &str, address: u32) -> Result<(), OutOfMemory>
        ensures { self.new ≡ (if is_ok result then with_label label.now address self.old else
            self.old) }
    {
        let label = String::from_str(alloc, label)?;
        self.addresses.insert(label, address)?;
        Ok(())
    }
}
