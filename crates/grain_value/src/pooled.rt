//! What the pools of a program give.

ghost use Rattle.std.specs.Prelude.{◌≡◌, ◌<◌, ℕ, List, length, Some, slice_get};
ghost use Rattle.grain_value.specs.Tree.{Tree};
ghost use Rattle.grain_value.specs.View.{tree};

use crate::texts::Text;
use crate::values::Dynamic;

/// The pools that the indices of a fragment lead to.
pub trait Pools {
    // the bytes of each name
    ghost names: { Self → List (List ℕ) };

    // the tree of each constant
    ghost constants: { Self → List Tree };

    /// The name at the index, which is below the number of names.
    fn name(&self, index: u32) -> &Text
        requires { index < length (names self.now) }
        ensures { slice_get (names self.now) index ≡ Some result.now };

    /// The constant at the index, which is below the number of constants.
    fn constant(&self, index: u32) -> &Dynamic
        requires { index < length (constants self.now) }
        ensures { slice_get (constants self.now) index ≡ Some (tree result.now) };
}
