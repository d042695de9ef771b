// unit_call: takes a frequency record of region 0 and then three units' records from standard input, so that bench/unit_call can count what a unit call
// executes. It prints how many records the tally counts after the second and after the third, and on which side of zero the first numbers of the lists are.
#![tactic(auto)]

use interval::Tally;

// Standard input.
const STDIN_FILENO: i32 = 0;

// Standard output.
const STDOUT_FILENO: i32 = 1;

// The book, five regions and 511 units: a unit after them is the last, and looks for its group among all the others'.
const BEFORE_LAST: u16 = 517;

// So many records are taken, of a book with 512 units and one requirement.
fn tally_after(records: u16) -> Tally {
    Tally {
        units: 512,
        requirements: 1,
        records: records,
        least: 0,
        smoothing: 10_000,
        limit: 75,
        percent: 100,
        interval: 1,
    }
}

// What is never read, a compiler may leave out.
fn print_side(number: i64) {
    if number < 0 {
        io::write_all(STDOUT_FILENO, b" -");
        return;
    }
    if 0 < number {
        io::write_all(STDOUT_FILENO, b" +");
        return;
    }
    io::write_all(STDOUT_FILENO, b" 0");
}

fn print_number(number: u16) {
    print_side(number as i64);
}

fn print_home(home: u8) {
    print_side(home as i64);
}

// The other four regions have figures of the same interval number, 1, already.
fn take_region(
    part: &[u8; 368],
    measures: &mut [i32; 375],
    sums: &mut [i64; 750],
    figures: &mut [i64; 50],
) {
    frequencies::frequency::frequency(tally_after(1), part, measures, sums, figures);
}

// Three calls, for one that is called once would be made a part of its caller: the first unit, the next, which may join its group, and the last of 512. The
// units between are not taken: of them the lists hold zeros.
fn take_units(
    first: &[u8; 372],
    second: &[u8; 372],
    last: &[u8; 372],
    measures: &[i32; 375],
    sums: &mut [i64; 750],
    figures: &[i64; 50],
) {
    let mut numbers = [0u16; 512];
    let mut homes = [0u8; 512];
    let mut rows = [0i64; 4096];
    let mut groups = [0u16; 512];
    let mut deviations = [0i64; 75];
    let once = units::unit::unit(
        tally_after(6),
        first,
        measures,
        sums,
        figures,
        &mut numbers,
        &mut homes,
        &mut rows,
        &mut groups,
        &mut deviations,
    );
    let twice = units::unit::unit(
        once.tally,
        second,
        measures,
        sums,
        figures,
        &mut numbers,
        &mut homes,
        &mut rows,
        &mut groups,
        &mut deviations,
    );
    let full = units::unit::unit(
        tally_after(BEFORE_LAST),
        last,
        measures,
        sums,
        figures,
        &mut numbers,
        &mut homes,
        &mut rows,
        &mut groups,
        &mut deviations,
    );
    io::print_decimal(STDOUT_FILENO, twice.tally.records as u64);
    io::write_all(STDOUT_FILENO, b" ");
    io::print_decimal(STDOUT_FILENO, full.tally.records as u64);
    print_number(numbers[0]);
    print_home(homes[0]);
    print_side(rows[0]);
    print_side(rows[1]);
    print_side(rows[2]);
    print_number(groups[1]);
    print_number(groups[511]);
    print_side(deviations[0]);
}

fn main() {
    let mut region = [0u8; 368];
    let mut first = [0u8; 372];
    let mut second = [0u8; 372];
    let mut last = [0u8; 372];
    io::read_full(STDIN_FILENO, &mut region);
    io::read_full(STDIN_FILENO, &mut first);
    io::read_full(STDIN_FILENO, &mut second);
    io::read_full(STDIN_FILENO, &mut last);
    let mut measures = [0i32; 375];
    let mut sums = [0i64; 750];
    let mut figures = [1i64; 50];
    take_region(&region, &mut measures, &mut sums, &mut figures);
    take_units(&first, &second, &last, &measures, &mut sums, &figures);
    print_side(sums[0]);
    print_side(sums[75]);
    io::write_all(STDOUT_FILENO, b"\n");
}
