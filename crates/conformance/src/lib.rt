// Calls with their answers, made by an independent model of document 01, against the definitions: see specs/ and proofs/.
#![tactic(auto)]
