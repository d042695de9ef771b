// paper: the book of document 01's own listing, from its bytes to the text, and what is refused of it with a byte or two changed, as theorems by
// computing. It holds no code; specs/PaperListing.antt and specs/RefusedBooks.antt have the theorems;
// specs/PaperWritten.antt has the book written from its values.
#![tactic(auto)]
