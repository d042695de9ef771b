// books: worked books, how their bytes are written and how a theorem about them is computed. It holds no code; the slower
// theorems about these books stand in `worked`, `paper` and `refused`.
#![tactic(auto)]
