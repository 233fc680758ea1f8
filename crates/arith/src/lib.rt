// Definitions and laws only, for all layers above: the operations that an algorithm uses, over any
// type of numbers (specs/Operations), and loops as functions of a state (specs/Loop).
#![tactic(auto)]
