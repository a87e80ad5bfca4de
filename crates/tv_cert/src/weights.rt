//! Weights of exponents at the classes of a report, and faults at them.

ghost use Rattle.std.specs.Prelude.{◌≡◌, ◌*◌, ◌≤◌, ◌<◌, ◌^◌, pos, ◌-ℤ◌};
ghost use Rattle.tv_spec_plane.specs.Web.{degree_of};
ghost use Rattle.tv_laws_integers.specs.Closed.{IsClassTo};
ghost use Rattle.tv_gv.specs.Extracted.{IsExtractable, degree_to};
ghost use Rattle.tv_gv.specs.Progress.{last_weight};
ghost use Rattle.tv_cert.specs.Plans.{IsWeightBelow, IsAtWeight};

use crate::fault::CertFault;
use tv_graded::Graded;
use tv_lattice::class::Class;
use tv_recurrence::RowFault;
use tv_ring::Whole;

/// The degree of a class.
pub fn degree_in(family: &Graded<Whole>, class: &Class) -> u64
    requires extractable { IsExtractable family.now }
    requires class { IsClassTo (degree_to family.now) family.now.heights class.now }
    ensures value { pos result ≡ degree_of family.now.heights class.now }
    ensures small { result ≤ 24 }
{
    class.degree(family.heights()) as u64
}

/// The weight of the exponent 0 at a class of that degree.
pub fn base_of(slope: u64, degree: u64) -> usize
    requires slope { slope ≤ 64 }
    requires degree { degree ≤ 24 }
    ensures value { result ≡ slope * degree }
    ensures small { result ≤ 1536 }
{
    (slope * degree) as usize
}

/// The last weight: that of the last exponent at the greatest degree.
pub fn last_weight(family: &Graded<Whole>, slope: u64) -> usize
    requires extractable { IsExtractable family.now }
    requires low { slope ≤ 64 }
    ensures value { result ≡ last_weight family.now slope }
    ensures small { result ≤ 1600 }
{
    family.upto() as usize + (slope * family.top() as u64) as usize
}

/// The exponent that has the weight, where the exponent 0 has the weight `base`.
fn exponent_of(weight: usize, base: usize) -> i64
    requires weight { weight < 2 ^ 31 }
    requires base { base < 2 ^ 31 }
    ensures value { result ≡ pos weight -ℤ pos base }
{
    weight as i64 - base as i64
}

/// The fault of a row, of a class, with its exponent for the weight.
pub fn fault_at(class: Class, base: usize, fault: RowFault) -> CertFault
    requires base { base < 2 ^ 31 }
    requires weight { IsWeightBelow (2 ^ 31) fault }
    ensures value { IsAtWeight class base fault result }
{
    match fault {
        RowFault::Wide(weight) => CertFault::Wide {
            class,
            exponent: exponent_of(weight, base),
        },
        RowFault::Memory => CertFault::Memory,
    }
}
