//! Laws of Katz's product over integers: what a further integer changes, the recurrence and the sizes of its terms. There is
//! no program code here.
#![tactic(auto)]

pub mod laws;
