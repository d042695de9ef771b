// closing: the books close, demand 3, as theorems over the rules' definitions, and the calculators that they and the listing rule out. It holds no
// code: specs/ has what the demand speaks of, proofs/Demand3.antt the demand's words, each above its theorem; the laws they cite stand beside it.
#![tactic(auto)]
