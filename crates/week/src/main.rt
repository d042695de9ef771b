// week: reads the books of at most seven days on standard input, one after another, and prints for each member's number and each region's residual the
// count of live intervals and the default that they give, for raise and for lower. A refused book ends it with one line. How far it is, and what goes
// wrong with reading or writing, is told on standard error.
#![tactic(auto)]

mod output;
mod performances;
mod replay;
mod running;

// The buffers, in bytes, each array once:
//   a book's regions: measures 1,500, sums 6,000, figures 400
//   its units: numbers 1,024, homes 512, rows 32,768, groups 1,024, and a group's deviations 600
//   bytes of the records 769, and one to see that the books end; five of a unit's readings 20 (`units`)
//   an answer's columns (performances.rt): performances, factors, payments, used, unused 4,104 each, and its requirement 24
//   a book's performances (replay.rt) 8,272, and whether they are live 1,034
//   the weeks: names 1,024, lives 2,068, highs 2,068, lows 8,272
//   the library's own: a share's counters 512, and while a line is written 4,096
// Together 92,508, within 131,072.
use book::POINTS;
use intake::RECORDS;
use interval::{FIGURES_LENGTH, ROWS_LENGTH, SERIES_LENGTH, SUMS_LENGTH};
use performances::ROWS;
use running::{MEMBERS, WEEKS};

fn main(rt: HostRuntime) {
    let mut input = rt.stdin();
    let mut bytes = [0u8; RECORDS];
    let mut measures = [0i32; SERIES_LENGTH];
    let mut sums = [0i64; SUMS_LENGTH];
    let mut figures = [0i64; FIGURES_LENGTH];
    let mut numbers = [0u16; ROWS];
    let mut homes = [0u8; ROWS];
    let mut rows = [0i64; ROWS_LENGTH];
    let mut groups = [0u16; ROWS];
    let mut deviations = [0i64; POINTS];
    let mut names = [0u16; MEMBERS];
    let mut lives = [0u16; WEEKS];
    let mut highs = [0u16; WEEKS];
    let mut lows = [0u64; WEEKS];
    let end = replay::replay(
        &mut input,
        &mut bytes,
        &mut measures,
        &mut sums,
        &mut figures,
        &mut numbers,
        &mut homes,
        &mut rows,
        &mut groups,
        &mut deviations,
        &mut names,
        &mut lives,
        &mut highs,
        &mut lows,
    );
    output::report(end, &names, &lives, &highs, &lows);
}
