// worked: further worked books, from their bytes to their listings, as theorems by computing. It holds no code; specs/Listings.antt has the theorems,
// and specs/Strips.antt those on worked trend strips.
#![tactic(auto)]
