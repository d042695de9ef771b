// A line goes behind what stands in the text. Each answer is how long the line is, or 0 where it has no room.
ghost use Rattle.std.specs.Prelude.{◌≡◌, ◌≤◌, ◌<◌, length};
ghost use Rattle.rules.specs.Listing.{interval_line, requirement_line, member_line};
ghost use Rattle.listing.specs.Lines.{answer_of, unit_of, residual_of};
ghost use Rattle.lister.specs.Said.{Said};
ghost use Rattle.lister.specs.Move.{line_of};

use super::least::has_no_room;
use answer::Answer;
use listing::lines::{interval_line, requirement_line, residual_line, unit_line};
use listing::pieces::put_word;
use listing::{Amounts, LINE, Pool, RequirementLine};
use rules::Standing;

fn append(line: &[u8], done: usize, text: &mut [u8]) -> usize
    requires { (0 < length line.now) × (done ≤ length text.old) }
    ensures { Said line.now done text.old result text.new }
{
    if text.len() - done < line.len() {
        return 0;
    }
    put_word(line, done + line.len(), text);
    line.len()
}

pub(crate) fn say_interval(interval: u32, done: usize, text: &mut [u8]) -> usize
    requires { done ≤ length text.old }
    ensures { Said (interval_line interval) done text.old result text.new }
{
    let mut line = [0u8; LINE];
    let start = interval_line(interval, &mut line);
    append(&line[start..], done, text)
}

fn line_of(given: Answer) -> RequirementLine
    ensures { result ≡ line_of given }
{
    let used = given.used;
    let unused = given.unused;
    let direction = given.direction;
    RequirementLine {
        number: given.number,
        direction: direction,
        rcr: given.rcr,
        pool: given.pool,
        used: Pool {
            cents: used.pool,
            unplaced: used.unplaced,
        },
        unused: Pool {
            cents: unused.pool,
            unplaced: unused.unplaced,
        },
    }
}

pub(crate) fn say_requirement(given: Answer, done: usize, text: &mut [u8]) -> usize
    requires { done ≤ length text.old }
    ensures { Said (requirement_line (answer_of (line_of given))) done text.old result text.new }
{
    let mut line = [0u8; LINE];
    let start = requirement_line(line_of(given), &mut line);
    append(&line[start..], done, text)
}

pub(crate) fn say_unit(
    number: u16,
    standing: Standing,
    amounts: Amounts,
    done: usize,
    text: &mut [u8],
) -> usize
    requires { done ≤ length text.old }
    ensures { Said (member_line (unit_of number standing amounts)) done text.old result text.new }
{
    if has_no_room(text.len() - done, amounts) {
        return 0;
    }
    let mut line = [0u8; LINE];
    let start = unit_line(number, standing, amounts, &mut line);
    append(&line[start..], done, text)
}

pub(crate) fn say_residual(
    standing: Standing,
    amounts: Amounts,
    done: usize,
    text: &mut [u8],
) -> usize
    requires { done ≤ length text.old }
    ensures { Said (member_line (residual_of standing amounts)) done text.old result text.new }
{
    let mut line = [0u8; LINE];
    let start = residual_line(standing, amounts, &mut line);
    append(&line[start..], done, text)
}
