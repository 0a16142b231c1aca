// Demand 3, the claim about whole lists of calls on one panel: specs/Demand.antt has it, specs/Theorem.antt proves it over the steps of
// the crate history. Beside it stand what is owed where the bus failed (specs/Recovery.antt), what Clear does to the chip (specs/Clear.antt) and
// the claim in terms of lamps (specs/Lamps.antt). There is no code.
#![tactic(auto)]
