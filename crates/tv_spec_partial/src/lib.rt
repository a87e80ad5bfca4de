//! Configurations over the first corners of a web, as definitions. Nothing is computed here for a caller.
#![tactic(auto)]
