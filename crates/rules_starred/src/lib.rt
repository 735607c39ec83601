// No code: in specs/ document 01's starred runs as one table, and in proofs/ that every row is
// right.
#![tactic(auto)]
