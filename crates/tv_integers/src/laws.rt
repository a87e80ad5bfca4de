//! The laws of kept integers, as calls that do nothing and whose contracts are the laws.

ghost use Rattle.tv_integers.specs.Laws.{SetInFront, OrderedAreKept};

/// An integer that comes later than all of a list is put in front of it.
pub fn set_in_front()
    ensures law { SetInFront }
{}

/// Integers in order to a degree are kept ones of at most that degree, and the other way round.
pub fn ordered_are_kept()
    ensures law { OrderedAreKept }
{}
