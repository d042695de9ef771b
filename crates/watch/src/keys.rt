// The keys, a byte each. None is read before the screen of the one before it is written.
use super::commands::{Command, command_of};
use std::io::{Read, Stdin};

// The next byte's; where the input has ended or a reading fails, the end.
fn next_byte(input: &mut Stdin) -> Command {
    let mut byte = [0u8; 1];
    let Ok(count) = input.read(&mut byte) else {
        return Command::End;
    };
    if count != 1 {
        return Command::End;
    }
    command_of(byte[0])
}

// What the next key asks for: bytes that ask for nothing are passed over. No input has as many as are counted here: it says that the loop ends.
pub(crate) fn next_command(input: &mut Stdin) -> Command {
    for _ in 0..u64::MAX {
        let command = next_byte(input);
        let Command::Nothing = command else {
            return command;
        };
    }
    Command::End
}
