// Demand 3: the book and the claim over any list of calls stand in specs/, the theorem in proofs/.
#![tactic(auto)]
