// refused: both sides of each rule and limit of a book's fields, as theorems by computing: one book with a field changed, and the number that it is refused
// with. It holds no code; specs/Changed.antt says what a table of changes states, and a file for each kind of record has the tables.
// What the book writer refuses stands in specs/WriterRefusals.antt and specs/WriterUnits.antt.
#![tactic(auto)]
