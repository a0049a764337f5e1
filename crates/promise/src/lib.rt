#![tactic(auto)]

// What it means that a promise allows one answer: a definition in specs/ and its proof for the usual promise in proofs/.
