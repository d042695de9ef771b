// chain: what a chain of the calls of `interval` leaves, over what they promise and not over their code. It holds definitions (specs/) and
// theorems (proofs/) alone: the chain theorem; that what a chain leaves is never refused for its range, and that a tally of another book's interval is told
// over its lists; how far the calls go on a book that is handed on whole or cut and which refusal they meet, whatever was refused before; the book
// that the parts spell which were taken; and that what is kept gives the rules' answer.
#![tactic(auto)]
