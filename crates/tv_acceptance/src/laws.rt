//! Laws of accepted files: each function does nothing, and its contract is true of every file that the program takes, and of
//! its web.

ghost use Rattle.tv_acceptance.specs.Laws.{GridIsAccepted, AcceptedIsNotRefused, AcceptedAsOneWeb, AcceptedHasEdgeRule, AcceptedConfigurationSign, AcceptedPartialSign, AcceptedNoneCancels, AcceptedSizeIsNumber};

/// No bytes are both accepted and refused.
pub fn accepted_file_is_not_refused()
    ensures { AcceptedIsNotRefused }
{}

/// Bytes are accepted as one web at most.
pub fn accepted_file_has_one_web()
    ensures { AcceptedAsOneWeb }
{}

/// The file of a grid is accepted, with the grid as its web.
pub fn grid_is_accepted()
    ensures { GridIsAccepted }
{}

/// The two triangles of each compact edge are unimodular and lie on its two sides.
pub fn accepted_file_has_edge_rule()
    ensures { AcceptedHasEdgeRule }
{}

/// A configuration's sign is that of its class and Euler characteristic, whatever diagrams stand on the open edges.
pub fn accepted_configuration_has_sign_of_class()
    ensures { AcceptedConfigurationSign }
{}

/// So is that of a partial configuration, over any number of corners and with empty open edges.
pub fn accepted_partial_configuration_has_sign_of_class()
    ensures { AcceptedPartialSign }
{}

/// So none cancels another: a coefficient of a full series is the sign of its class and exponent times the number of the
/// configurations.
pub fn accepted_coefficient_is_signed_number()
    ensures { AcceptedNoneCancels }
{}

/// And its absolute value is that number.
pub fn accepted_coefficient_has_size_of_number()
    ensures { AcceptedSizeIsNumber }
{}
