// sheet: can a bureau's factors be right (document 02, R-12)? Two lines on standard input, performances and factors; or, with a book and a requirement's number
// as arguments, the factors alone, beside the performances that the book gives. It prints one line. What goes wrong with reading or writing is told on
// standard error.
#![tactic(auto)]

mod books;
mod lines;
mod output;

use intake::arguments::argument_count;

// The buffers, in bytes, each array once: text 4,096; performances and factors 4,112 each; and for a book
//   its regions: measures 1,500, sums 6,000, figures 400; its units: numbers 1,024, homes 512, rows 32,768, groups 1,024, a group's deviations 600
//   bytes of a record 373, the requirement's 24; performances, factors, payments, used, unused 4,104 each; the file's name 4,096, and what the kit makes of it
fn main(rt: HostRuntime) {
    let mut input = rt.stdin();
    let arguments = argument_count(&rt);
    if arguments == 1 {
        lines::judge_lines(&mut input);
        return;
    }
    if arguments == 3 {
        books::judge_book(&rt, &mut input);
        return;
    }
    output::usage();
}
