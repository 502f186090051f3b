// Two texts compared by their bytes.
#![tactic(auto)]

ghost use Rattle.std.specs.Prelude.{◌≡◌};
ghost use Rattle.std.specs.Ordering.{ordering_index};
ghost use Rattle.text_runs.specs.Orders.{bytes_compared};

use std::cmp::Ordering;

// Which of a and b comes first, or `Equal` if they have the same bytes.
pub fn compare_bytes(a: &[u8], b: &[u8]) -> Ordering
    ensures { ordering_index result ≡ bytes_compared a.now b.now }
{
    a.cmp(b)
}
