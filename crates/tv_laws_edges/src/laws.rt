//! Laws of one compact edge: each function does nothing, and its contract is a law.

ghost use Rattle.tv_laws_edges.specs.Laws.{EdgeRule, ClassParity, FourParities, FlatDegree};

/// Where both triangles of an edge are unimodular and lie on its two sides, exactly one pair of whole numbers meets the
/// rule of the edge.
pub fn edge_has_one_rule()
    ensures { EdgeRule }
{}

/// The entries of the class of an edge that has the rule, at the points whose coordinates are both even, add up to a number
/// that is even exactly where its normal degree is.
pub fn class_has_parity_of_normal_degree()
    ensures { ClassParity }
{}

/// The four points of the two triangles of an edge that has the rule show all four pairs of parities of x and y exactly
/// where its normal degree is odd.
pub fn four_points_show_odd_normal_degree()
    ensures { FourParities }
{}

/// Heights i x + j y + k give the degree 0 to every edge that has the edge rule, so its degree is that of the bend of the
/// heights alone.
pub fn flat_heights_have_no_degree()
    ensures { FlatDegree }
{}
