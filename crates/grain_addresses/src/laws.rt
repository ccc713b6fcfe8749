//! Laws of the lines that are found.

ghost use Rattle.std.specs.Prelude.{◌≡◌, ◌<◌, ◌≤◌, ℕ, List, Some, None, Ok, IsSome, IsSomeAnd, length, slice_get, chars};
ghost use Rattle.grain_program.specs.Chains.{slot_of};
ghost use Rattle.grain_program.specs.declared.code.chains.Chain.{Chain};
ghost use Rattle.grain_program.specs.declared.code.chains.Step.{Step};
ghost use Rattle.grain_words.specs.Lines.{lines_of};
ghost use Rattle.grain_listing.specs.Reading.{ListingView, reads};
ghost use Rattle.grain_addresses.specs.Finding.{found};
ghost use Rattle.grain_addresses.specs.Places.{places_of};
ghost use Rattle.grain_addresses.specs.StepLines.{step_named, steps_of, SaysStep, BeginsNoStep};

/// Each byte of a listing's code is given by one of its lines, and no byte past the code is.
pub fn addresses_have_lines()
    ensures inside { (bytes : List ℕ) (s : ListingView) (a : ℕ) → reads bytes ≡ Ok s →
        a < length s.parts.code → IsSome (found a (places_of (lines_of (chars bytes)))) }
    ensures past { (bytes : List ℕ) (s : ListingView) (a : ℕ) → reads bytes ≡ Ok s →
        length s.parts.code ≤ a → found a (places_of (lines_of (chars bytes))) ≡ None }
{}

/// The slot by which a trace names a step of a listing's chain is that of the line that says this step.
/// At a slot where no step of the chain begins, no line is found.
pub fn steps_have_lines()
    ensures found { (bytes : List ℕ) (s : ListingView) (k n : ℕ) (c : Chain) (x : Step) →
        reads bytes ≡ Ok s → slice_get s.parts.chains k ≡ Some c → slice_get c.steps n ≡ Some x →
        IsSomeAnd (step_named (Some k) (slot_of s.parts k n) (steps_of (lines_of (chars bytes))))
        (SaysStep (lines_of (chars bytes)) k n x) }
    ensures none { (bytes : List ℕ) (s : ListingView) (k slot : ℕ) → reads bytes ≡ Ok s →
        BeginsNoStep s.parts k slot →
        step_named (Some k) slot (steps_of (lines_of (chars bytes))) ≡ None }
{}
