// The three demands of the product, as theorems over the definitions that the contracts cite: see proofs/Refusals.antt, Exact.antt and Edits.antt. Beside
// them what requests of document 02 have proved of all calls: Thirteen.antt.
#![tactic(auto)]
