// kept: what the calls of `interval` have kept of a book, read as what the rules ask for, and which of it is in range. It holds definitions alone, in
// specs/; that the answer over what is kept is the rules' answer over the book is proved in `chain`.
#![tactic(auto)]
