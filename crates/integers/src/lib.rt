// integers: the laws of whole numbers that the rest of the calculator cites. No rule of the market stands here, and no code:
// specs/ has the few definitions, one concept a file, and proofs/ the laws, under the same names.
#![tactic(auto)]
