//! Lemmas of arithmetic and of lists that several crates cite: the ring of the integers, signs, sums over lists, lists of
//! lists, members, and lists without repeats. The sums themselves are definitions that contracts cite. There is no program
//! code here, and nothing of webs or triangles.
#![tactic(auto)]
