//! Counts that take no bytes.

ghost use Rattle.std.specs.Prelude.{◌≡◌, ◌+◌, ◌<◌};

use std::marker::Model;
use std::mem;
use std::sync::ledger::{Blank, Book, Ledger, Share};

/// How many instructions were begun, those of the run that is under way apart, and how many marks
/// that run has passed: points at which memory may be out. It takes no bytes, and its calls do
/// nothing at run time.
#[derive(Drop)]
pub struct Steps<L: Ledger> {
    book: Book<L>,
    begun_before: Share<L>,
    begun: Share<L>,
    passed_before: Share<L>,
    passed: Share<L>,
}

impl<L: Ledger> Model for Steps<L> {
    ghost use Rattle.std.specs.Prelude.{◌<◌};
    ghost use Rattle.grain_global.specs.StepsView.{StepsView};

    ghost Value = { StepsView };

    ghost view = { λ s. record {
      before = s.begun_before.amount;
      begun = s.begun.amount;
      passed =
          s.passed.amount;
    } };

    ghost invariant = { λ s. (1 < s.begun_before.parts) × (0 < s.begun.parts) ×
        (1 < s.passed_before.parts) × (0 < s.passed.parts) };
}

impl<L: Ledger> Steps<L> {
    /// No instruction begun and no mark passed.
    pub fn new(blank: Blank) -> Steps<L>
        requires name { blank.name ≡ L.name }
        requires parts { blank.parts ≡ L.parts }
        requires enough { 5 < blank.parts }
        ensures { result ≡ record { before = 0; begun = 0; passed = 0 } }
    {
        let (book, mut begun_before) = blank.open();
        let mut passed_before = begun_before.split_off(3, 0);
        let begun = begun_before.split_off(1, 0);
        let passed = passed_before.split_off(1, 0);
        Steps {
            book,
            begun_before,
            begun,
            passed_before,
            passed,
        }
    }

    /// A run begins: what the run before has begun counts as earlier.
    pub fn start(&mut self)
        ensures { self.new ≡
            record { before = self.old.before + self.old.begun; begun = 0; passed = 0 } }
    {
        let begun = self.begun_before.split_off(1, 0);
        let earlier = mem::replace(&mut self.begun, begun);
        self.begun_before.merge(earlier);
        let passed = self.passed_before.split_off(1, 0);
        let earlier = mem::replace(&mut self.passed, passed);
        self.passed_before.merge(earlier);
    }

    /// An instruction begins.
    pub fn begin_instruction(&mut self)
        ensures { self.new ≡ record self.old { begun = self.old.begun + 1 } }
    {
        self.book.add(&mut self.begun, 1);
    }

    /// This many marks are passed.
    pub fn mark_all(&mut self, count: u64)
        ensures { self.new ≡ record self.old { passed = self.old.passed + count } }
    {
        self.book.add(&mut self.passed, count);
    }

    /// A mark is passed.
    pub fn mark(&mut self)
        ensures { self.new ≡ record self.old { passed = self.old.passed + 1 } }
    {
        self.book.add(&mut self.passed, 1);
    }
}
