//! Katz's product over integers, and the integers of a family of series, as definitions. Nothing is computed here for a
//! caller.
#![tactic(auto)]
