// A file or standard input, read to its end or as far as the buffer goes.
ghost use Rattle.std.specs.Prelude.{◌≤◌, length, IfOk};

use crate::names::{name_argument, text_of};
use std::fs;
use std::io::{Input, Read};
use std::rt::{Env, Files};
use telling::{LONGEST_ARGUMENT, Tell, Told, say_failed};

// One call: the bytes go to the start of the buffer.
fn read_some(
    rt: &impl Tell,
    what: &[u8],
    reader: &mut impl Read,
    buffer: &mut [u8],
) -> Result<usize, Told>
    ensures { IfOk result (λ more. more ≤ length buffer.new) }
{
    reader
        .read(buffer)
        .map_err(|error| say_failed(rt, what, error))
}

// All that it gives, at the start of the buffer. It goes on by as many bytes as a call gives, so no range counts them.
fn read_whole<'a>(
    rt: &impl Tell,
    what: &[u8],
    reader: &mut impl Read,
    buffer: &'a mut [u8],
) -> Result<&'a [u8], Told> {
    let mut done = 0;
    while done < buffer.len() {
        let more = read_some(rt, what, reader, &mut buffer[done..])?;
        if more == 0 {
            break;
        }
        done += more;
    }
    Ok(&buffer[..done])
}

fn read_path<'a>(
    rt: &(impl Files + Tell),
    path: &[u8],
    buffer: &'a mut [u8],
) -> Result<&'a [u8], Told> {
    let name = text_of(rt, path)?;
    let mut file = fs::open(rt, name).map_err(|error| say_failed(rt, path, error))?;
    read_whole(rt, path, &mut file, buffer)
}

// Reads the file that argument i names.
pub fn read_argument<'a>(
    rt: &(impl Env + Files + Tell),
    i: usize,
    buffer: &'a mut [u8],
) -> Result<&'a [u8], Told> {
    let mut path = [0u8; LONGEST_ARGUMENT];
    let length = name_argument(rt, i, &mut path)?;
    read_path(rt, &path[..length], buffer)
}

pub fn read_input<'a>(rt: &(impl Input + Tell), buffer: &'a mut [u8]) -> Result<&'a [u8], Told> {
    let mut input = rt.reader();
    read_whole(rt, b"standard input", &mut input, buffer)
}
