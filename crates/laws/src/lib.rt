// laws: what follows from the definitions of `rules`, for proofs to cite; a reader who wants to know what the calculator works out
// may skip it. It holds no code. The laws stand in proofs/, a file for each definition's.
#![tactic(auto)]
