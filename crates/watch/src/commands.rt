// What a byte of standard input asks for, and where it goes from the requirement on show.
ghost use Rattle.std.specs.Prelude.{◌≡◌, ◌≤◌};
ghost use Rattle.watch.specs.Commands.{command, turn, Within};

use rules::Key;

// A key of the panel, another requirement or book, the end, or nothing.
#[derive(Clone, Copy)]
pub(crate) enum Command {
    Page(Key),
    NextRequirement,
    PreviousRequirement,
    NextBook,
    End,
    Nothing,
}

// The key that is left for the page on show; another requirement, by its place; the next book; or the end.
#[derive(Clone, Copy)]
pub(crate) enum Turn {
    Press(Key),
    Requirement(u16),
    Book,
    End,
}

pub(crate) fn command_of(byte: u8) -> Command
    ensures { result ≡ command byte }
{
    match byte {
        b'n' => Command::Page(Key::Next),
        b'p' => Command::Page(Key::Previous),
        b'h' => Command::Page(Key::Home),
        b'r' => Command::NextRequirement,
        b'R' => Command::PreviousRequirement,
        b'b' => Command::NextBook,
        b'q' => Command::End,
        _ => Command::Nothing,
    }
}

// Requirements are counted from 0 to the last. At its end each stays put: the page is drawn again.
pub(crate) fn turn_of(command: Command, requirement: u16, last: u16, more: bool) -> Turn
    requires { requirement ≤ last }
    ensures value { result ≡ turn command requirement last more }
    ensures within { Within last result }
{
    match command {
        Command::Page(key) => Turn::Press(key),
        Command::NextRequirement => if requirement < last {
            Turn::Requirement(requirement + 1)
        } else {
            Turn::Press(Key::Show)
        },
        Command::PreviousRequirement => if 0 < requirement {
            Turn::Requirement(requirement - 1)
        } else {
            Turn::Press(Key::Show)
        },
        Command::NextBook => if more {
            Turn::Book
        } else {
            Turn::Press(Key::Show)
        },
        Command::End => Turn::End,
        Command::Nothing => Turn::Press(Key::Show),
    }
}
