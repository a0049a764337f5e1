// The demands of the process review stand in specs/, and their proofs in proofs/.
#![tactic(auto)]
