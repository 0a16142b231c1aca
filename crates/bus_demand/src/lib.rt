// Demand 3 for four panels on one bus, and that rounds finish: specs/BusDemand.antt and specs/Finishing.antt have the claims. They are proved over
// the steps of the crate bus and the claim of the crate demand, by one bridge (specs/Places.antt): after any bus calls each place is what its own
// list of events gives. There is no code.
#![tactic(auto)]
