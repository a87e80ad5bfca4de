//! The texts that the program reads and writes, as definitions: lines and words, numbers, the grammar of files, the
//! report of a series and that of a check. Nothing is read or printed here.
#![tactic(auto)]
