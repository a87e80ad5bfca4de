//! Laws of the sign: each function does nothing, and its contract is a law.

ghost use Rattle.tv_laws_signs.specs.Laws.{TwistParity, ConfigurationSign, OneSign, CountedSign};
ghost use Rattle.tv_laws_signs.specs.PartialLaws.{PartialSign, WholeIsPartial};

/// The entries of an assignment's class at the points whose coordinates are both even add up to a number that is even
/// exactly where the sum of normal degree times size is.
pub fn class_has_parity_of_twist()
    ensures { TwistParity }
{}

/// A configuration's sign is that of its class and Euler characteristic.
pub fn configuration_has_sign_of_class()
    ensures { ConfigurationSign }
{}

/// So the listed configurations of one class and Euler characteristic all have one sign.
pub fn configurations_have_one_sign()
    ensures { OneSign }
{}

/// And none cancels another: the signed count is that sign times their number.
pub fn signed_count_is_signed_number()
    ensures { CountedSign }
{}

/// A partial configuration's sign is that of its class and Euler characteristic, as a whole one's is.
pub fn partial_configuration_has_sign_of_class()
    ensures { PartialSign }
{}

/// Once all corners are taken, no edge is pending, and the partial count is the signed count.
pub fn whole_count_is_partial()
    ensures { WholeIsPartial }
{}
