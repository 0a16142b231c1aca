// Demand 3 for a C program: specs/PanelHistory.antt has the claim about whole lists of calls of include/lp586x.h, specs/PanelTheorem.antt its proof
// from that of the crate demand: the bytes are always those of its record and its chip. Where the bus failed: specs/PanelRecovery.antt. There is no
// code.
#![tactic(auto)]
