//! Totals: how large a literal is that is being made.

ghost use Rattle.std.specs.Prelude.{◌≡◌};
ghost use Rattle.grain_value.specs.Sizes.{Sizes, counted, plus};
ghost use Rattle.grain_stack.specs.Totals.{empty_total, grown};

/// How large the elements are that a literal has so far, with all that stands inside them.
#[derive(Clone, Copy, Debug, PartialEq, Eq)]
pub struct Total {
    /// The elements of arrays.
    pub arrays: usize,
    /// The entries of maps.
    pub maps: usize,
    /// The bytes of texts.
    pub text: usize,
}

impl Total {
    /// A literal that has nothing so far.
    pub fn empty() -> Total
        ensures { result ≡ empty_total }
    {
        Total {
            arrays: 0,
            maps: 0,
            text: 0,
        }
    }

    /// The elements of arrays, the entries of maps and the bytes of texts.
    pub fn sizes(self) -> (usize, usize, usize)
        ensures { result ≡ (self.arrays, self.maps, self.text) }
    {
        (self.arrays, self.maps, self.text)
    }

    /// The same once an element is added, which itself counts as `one`, and holds so much. Each number
    /// stops at `usize::MAX`.
    pub fn grown(self, one: (usize, usize, usize), held: (usize, usize, usize)) -> Total
        ensures { (sizes : Sizes) → held ≡ counted sizes → result ≡ grown (plus one sizes) self }
    {
        Total {
            arrays: self.arrays.saturating_add(one.0).saturating_add(held.0),
            maps: self.maps.saturating_add(one.1).saturating_add(held.1),
            text: self.text.saturating_add(one.2).saturating_add(held.2),
        }
    }
}
