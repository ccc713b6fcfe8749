//! The addresses that wait to be taken.

ghost use Rattle.std.specs.Prelude.{◌≡◌, ◌↔◌, [], ◌∷◌, IsTrue, OnOk, MatchOption};
ghost use Rattle.std.specs.Ordering.{nat_cmp};
ghost use Rattle.std.specs.BTreeSet.{insert_key};
ghost use Rattle.grain_program.specs.Waiting.{IsBelow};

use std::alloc::{AllocFailed, Global};
use std::collections::BTreeSet;
use std::marker::Model;

/// Addresses that wait, in ascending order. The lowest one, which mostly is the address after the
/// instruction that was taken last, is kept apart where it can be: it comes and goes at no cost.
#[derive(Drop)]
pub struct Waiting {
    lowest: Option<usize>,
    others: BTreeSet<usize>,
}

impl Model for Waiting {
    ghost use Rattle.std.specs.Prelude.{List, ℕ};
    ghost use Rattle.grain_program.specs.Waiting.{with_first, IsFirst};

    ghost Value = { List ℕ };

    ghost view = { λ w. with_first w.lowest w.others.keys };

    ghost invariant = { λ w. IsFirst w.lowest w.others.keys };
}

/// Whether the address is below each of the others.
fn is_below(address: usize, others: &BTreeSet<usize>) -> bool
    ensures { IsTrue result ↔ IsBelow address others.now.keys }
{
    match others.first() {
        Some(first) => address < *first,
        None => true,
    }
}

impl Waiting {
    /// None waits.
    pub fn new(alloc: Global) -> Waiting
        ensures { result ≡ [] }
    {
        Waiting {
            lowest: None,
            others: BTreeSet::new(alloc),
        }
    }

    /// The address waits too.
    #[inline]
    pub fn insert(&mut self, address: usize) -> Result<(), AllocFailed<usize>>
        ensures { OnOk result (self.new ≡ insert_key nat_cmp self.old address) }
    {
        match self.lowest {
            Some(lowest) => {
                if address < lowest {
                    self.others.insert(lowest)?;
                    self.lowest = Some(address);
                } else if lowest < address {
                    self.others.insert(address)?;
                }
            }
            None => {
                if is_below(address, &self.others) {
                    self.lowest = Some(address);
                } else {
                    self.others.insert(address)?;
                }
            }
        }
        Ok(())
    }

    /// The lowest address that waits, which waits no longer. Where none waits, nothing changes.
    #[inline]
    pub fn pop_lowest(&mut self) -> Option<usize>
        ensures { MatchOption result ((self.old ≡ []) × (self.new ≡ self.old))
            (λ a. self.old ≡ a ∷ self.new) }
    {
        match self.lowest {
            Some(address) => {
                self.lowest = None;
                Some(address)
            }
            None => self.others.pop_first(),
        }
    }
}
