//! Box configurations of a web and their signed count, as definitions. Nothing is counted here for a caller.
#![tactic(auto)]
