// The order of a cue's calls, document 02's Q-6: specs/CueOrder.antt has the claims, specs/CueLaws.antt proves them over the promises of
// the crate host. There is no code.
#![tactic(auto)]
