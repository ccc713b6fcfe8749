//! Laws of how calls end.

ghost use Rattle.std.specs.Prelude.{ℕ, List, Option};
ghost use Rattle.grain_commands.specs.Headline.{PrintsCoreEnd};
ghost use Rattle.grain_commands.specs.Replies.{Counts, Ended};
ghost use Rattle.grain_commands.specs.Statuses.{Beside, Completes};

use grain_host::TableHost;
use grain_means::{core_agrees, one_meaning};
use grain_program::one_refusal;

/// How a call ended settles what its status says and what stands beside it, which status was due, and
/// what was printed of a core program's listing.
pub fn statuses_are_due()
    ensures beside { (words : List (List ℕ)) (input before now : Option (List ℕ))
        (counts : Counts) (status : ℕ) → Ended words input before now counts status →
        Beside words input before now counts status }
    ensures complete { (words : List (List ℕ)) (input before now : Option (List ℕ))
        (counts : Counts) (status : ℕ) → Ended words input before now counts status →
        Completes words input before now counts status }
    ensures headline { (words : List (List ℕ)) (input before now : Option (List ℕ))
        (counts : Counts) (status : ℕ) → Ended words input before now counts status →
        PrintsCoreEnd words input before now counts status }
{
    one_meaning::<TableHost>();
    core_agrees::<TableHost>();
    one_refusal();
}
