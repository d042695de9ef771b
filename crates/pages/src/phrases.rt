// A refusal number as a short phrase.
ghost use Rattle.std.specs.Prelude.{◌≡◌};
ghost use Rattle.rules.specs.Panel.{at_left};
ghost use Rattle.rules.specs.Phrases.{phrase as said};

use super::LINE;

// The phrase of a refusal number, on a line of its own: the numbers that fell apart have one together, and one that no refusal has is unknown.
pub fn phrase(number: u32) -> [u8; LINE]
    ensures { result ≡ at_left 20 (said number) }
{
    match number {
        1 => *b"ends too early      ",
        2 => *b"not an interval book",
        3 => *b"wrong contents table",
        4 => *b"bytes after the end ",
        5 => *b"count out of limits ",
        6 => *b"wrong settings      ",
        9 => *b"unit out of order   ",
        10 => *b"wrong requirement   ",
        11 => *b"call out of turn    ",
        12 => *b"buffer too short    ",
        14 => *b"default too low     ",
        15 => *b"year past 9999      ",
        16 => *b"wrong group         ",
        17 => *b"week out of limits  ",
        18 => *b"wrong report row    ",
        71..=74 => *b"wrong frequency data",
        81..=84 => *b"wrong unit data     ",
        _ => *b"unknown             ",
    }
}
