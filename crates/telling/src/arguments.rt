// The program's arguments, as the bytes that they are.
ghost use Rattle.std.specs.Prelude.{◌≤◌, length};

use std::env::FillError;
use std::rt::Env;

// The most bytes of an argument that are read.
pub const LONGEST_ARGUMENT: usize = 4_096;

// Argument i, read into a buffer: nothing where there is none, or where it is longer than the buffer.
pub fn argument<'a>(rt: &impl Env, i: usize, buffer: &'a mut [u8]) -> &'a [u8]
    ensures { length result.now ≤ length buffer.old }
{
    let length = rt.arg(i, buffer).unwrap_or(0);
    &buffer[..length]
}

// How many arguments there are, the program's own name among them.
pub fn argument_count(rt: &impl Env) -> usize {
    let mut first = [0u8; 1];
    for i in 0..usize::MAX {
        if let Err(FillError::NotPresent) = rt.arg(i, &mut first) {
            return i;
        }
    }
    usize::MAX
}
