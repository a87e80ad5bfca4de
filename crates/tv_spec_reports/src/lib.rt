//! The texts of reports beside that of a series, and the grammar in which a report of integers is read back, as
//! definitions over plain data. Nothing is printed or read here.
#![tactic(auto)]
