//! Where a choice stands in a list of choices. It looks at one after the other, and knows no web.

ghost use Rattle.std.specs.Prelude.{◌≡◌, ◌<◌, [], false, length, slice_index_or, MatchOption};
ghost use Rattle.std.specs.List.{AllByRecursion};
ghost use Rattle.tv_spec_boxes.specs.Assignments.{same_choice};

use tv_assignment::Assignment;
use tv_partition::diagram::Diagram;

/// The place of the choice.
pub(crate) fn place_of(keys: &[Assignment], choice: &[Diagram]) -> Option<usize>
    ensures { MatchOption result (AllByRecursion (λ key. same_choice choice.now key ≡ false) keys.now) (λ place. (place < length keys.now) × (slice_index_or keys.now place [] ≡ choice.now)) }
{
    for k in 0..keys.len() {
        if is_same(choice, keys[k].diagrams()) {
            return Some(k);
        }
    }
    None
}

fn is_same(first: &[Diagram], second: &[Diagram]) -> bool
    ensures { result ≡ same_choice first.now second.now }
{
    first == second
}
