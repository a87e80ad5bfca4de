//! How far the series of class zero has to be known for a division. It divides nothing.

ghost use Rattle.std.specs.Prelude.{◌≡◌, ◌≤◌, ◌<◌, ◌^◌, ◌-ℤ◌, ◌≤ℤ◌, pos, take, length, unsigned_abs, slice_get, Some, IfSome};
ghost use Rattle.tv_reduced.specs.Orders.{IsOrder};

use tv_graded::Graded;
use tv_ring::Ring;
use tv_spec_plane::limits::GREATEST_ORDER;

/// The least order, from 0 on, that reaches from the low of each series to `n`.
pub fn order_of<C: Ring>(family: &Graded<C>, n: i64) -> i64
    requires { unsigned_abs n ≤ GREATEST_ORDER }
    ensures { IsOrder n family.now.rows result }
{
    let mut order: i64 = 0;
    for k in 0..family.len() {
        order = order.max(distance(family, k, n));
    }
    order
}

/// From the low of series number k to n.
fn distance<C: Ring>(family: &Graded<C>, k: usize, n: i64) -> i64
    requires order { unsigned_abs n ≤ GREATEST_ORDER }
    requires place { k < length family.now.rows }
    ensures value { IfSome (slice_get family.now.rows k) (λ x. result ≡ n -ℤ x.series.low) }
    ensures bound { unsigned_abs result ≤ 2 ^ 61 }
{
    match family.at(k) {
        Some(entry) => {
            entry.series.known();
            n - entry.series.low()
        }
        None => unreachable!(),
    }
}
