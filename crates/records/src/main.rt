// records: reads lines `KIND CONTEXT HEX` on standard input and prints a line for each: `taken` with the fields, or `refused` with the number and t.
// KIND and CONTEXT: `contents -`, `settings -`, `frequency POSITION`, `unit LEAST`, `requirement LEAST`, and `last LEAST` for a
// requirement after which no byte may follow. HEX are the bytes from the record on, two digits each; it may be empty.
// A line that starts with # is printed without its first character. Fields stand in the order of the record, in decimal, after one space each; a flag is 0 or
// 1. The 75 values of a frequency record are not printed. A unit's goodness follows its defaults, and its group comes last.
#![tactic(auto)]

mod line;
mod read;
mod say;

fn main() {
    let mut bytes = [0u8; 1024];
    line::all(&mut bytes);
}
