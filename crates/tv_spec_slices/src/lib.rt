//! The diagonal slices of the boxes of a corner, as definitions. Nothing is computed here for a caller.
#![tactic(auto)]
