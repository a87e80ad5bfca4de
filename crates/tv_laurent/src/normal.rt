//! The zeros at both ends of a row of coefficients.
//! It finds them, and leaves it to its callers to take them away.

ghost use Rattle.std.specs.Prelude.{◌≡◌, ◌≢◌, ℕ, ◌-◌, ◌<◌, ◌≤◌, length};
ghost use Rattle.tv_ring.specs.Sums.{at};

use tv_ring::Ring;

/// How many zeros the row begins with.
pub fn leading<C: Ring>(zero: &C, row: &[C]) -> usize
    requires zero { zero.now ≡ C.ring.nought }
    ensures within { result ≤ length row.now }
    ensures zeros { (i : ℕ) → i < result → at C.ring row.now i ≡ C.ring.nought }
    ensures first { result < length row.now → at C.ring row.now result ≢ C.ring.nought }
{
    let mut count = 0;
    while count < row.len() && row[count].same(zero) {
        count += 1;
    }
    count
}

/// How many coefficients are left without the zeros that the row ends with.
pub fn ending<C: Ring>(zero: &C, row: &[C]) -> usize
    requires zero { zero.now ≡ C.ring.nought }
    ensures within { result ≤ length row.now }
    ensures zeros { (i : ℕ) → result ≤ i → at C.ring row.now i ≡ C.ring.nought }
    ensures last { 0 < result → at C.ring row.now (result - 1) ≢ C.ring.nought }
{
    let mut end = row.len();
    while end > 0 && row[end - 1].same(zero) {
        end -= 1;
    }
    end
}
