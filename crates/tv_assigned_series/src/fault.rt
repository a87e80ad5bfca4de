//! A fault of a series, told without its exponent.

ghost use Rattle.tv_laurent.specs.Faults.{IsWithoutExponent};

use tv_laurent::SeriesFault;
use tv_ring::RingFault;

/// A series' fault without its exponent: it is Wide exactly where the fault is.
pub(crate) fn without_exponent(fault: SeriesFault) -> RingFault
    ensures value { IsWithoutExponent fault result }
{
    match fault {
        SeriesFault::Wide(_) => RingFault::Wide,
        SeriesFault::Memory => RingFault::Memory,
    }
}
