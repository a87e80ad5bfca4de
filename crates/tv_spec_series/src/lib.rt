//! Families of series by class, reduced series and the sizes of their division, as definitions. Nothing is added here for a
//! caller.
#![tactic(auto)]
