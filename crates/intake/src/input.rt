// What is read, such as standard input, into a place. What comes is the world's: the promise says only that it is within the place.
ghost use Rattle.std.specs.Prelude.{◌+◌, ◌≤◌, length};

use super::Filled;
use std::io::Read;

// One reading into what is left of the place.
fn read_on<R: Read>(file: &mut R, place: &mut [u8], done: usize) -> Filled
    requires { done ≤ length place.old }
    ensures { done + result.count ≤ length place.old }
{
    match file.read(&mut place[done..]) {
        Ok(count) => Filled {
            count,
            failed: false,
        },
        Err(_) => Filled {
            count: 0,
            failed: true,
        },
    }
}

// Reads until the place is full or the input ends.
pub fn fill<R: Read>(file: &mut R, place: &mut [u8]) -> Filled
    ensures { result.count ≤ length place.new }
{
    let mut done: usize = 0;
    while done < place.len() {
        let more = read_on(file, place, done);
        let count = more.count;
        if more.failed {
            return more;
        }
        if count == 0 {
            return Filled {
                count: done,
                failed: false,
            };
        }
        done += count;
    }
    Filled {
        count: done,
        failed: false,
    }
}
