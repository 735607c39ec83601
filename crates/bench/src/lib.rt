// Bare steps to measure: an exported function makes a step of each processor of a list, in place on
// lent bytes, and writes no answers.
#![tactic(auto)]

mod steps;
