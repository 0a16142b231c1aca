// Document 01's starred bench examples in one proved table, specs/Bench.antt, computed through the definitions of all the calls. There is
// no code: the examples take a while to compute, so that they stand apart from the crates whose definitions they are about.
#![tactic(auto)]
