// A file, written whole under its name with `.new` added, and then given its own name: so nothing half-written ever stands there.
use crate::names::{name_argument, text_of};
use beginnings::first;
use std::fs::{OpenFile, OpenOptions};
use std::io::Write;
use std::rt::{Env, Files};
use std::{fs, io};
use telling::{Tell, Told, say, say_failed};

// What is added to a name.
const ENDING: &[u8] = b".new";

// The most bytes of a name, and with what is added to it.
const LONGEST_NAME: usize = 4_096;

const LONGEST_NEW: usize = 4_100;

// Writes all bytes, and sees them stored.
fn write_through(file: &mut (impl Write + OpenFile), bytes: &[u8]) -> io::Result<()> {
    file.write_all(bytes)?;
    file.sync_all()
}

// Makes a new file of the bytes.
fn write_new(rt: &(impl Files + Tell), new: &str, bytes: &[u8]) -> Result<(), Told> {
    let mut options = OpenOptions::new();
    options.write(true).create_new(true);
    let mut file = options
        .open(rt, new)
        .map_err(|error| say_failed(rt, new.as_bytes(), error))?;
    if let Err(error) = write_through(&mut file, bytes) {
        let told = say_failed(rt, new.as_bytes(), error);
        drop(file);
        remove(rt, new);
        return Err(told);
    }
    Ok(())
}

// Removes what cannot be finished.
fn remove(rt: &(impl Files + Tell), new: &str) {
    if let Err(error) = fs::remove_file(rt, new) {
        say_failed(rt, new.as_bytes(), error);
        return;
    }
    say(rt, new.as_bytes());
    say(rt, b" is removed again\n");
}

// Gives the new file its own name.
fn rename(rt: &(impl Files + Tell), new: &str, name: &str) -> Result<(), Told> {
    fs::rename(rt, new, name).map_err(|error| {
        let told = say_failed(rt, name.as_bytes(), error);
        remove(rt, new);
        told
    })
}

fn write_named(
    rt: &(impl Files + Tell),
    name: &[u8],
    new: &[u8],
    bytes: &[u8],
) -> Result<(), Told> {
    let name = text_of(rt, name)?;
    let new = text_of(rt, new)?;
    write_new(rt, new, bytes)?;
    rename(rt, new, name)
}

// Makes the file that argument i names, or leaves it as it was.
pub fn write_argument(rt: &(impl Env + Files + Tell), i: usize, bytes: &[u8]) -> Result<(), Told> {
    let mut new = [0u8; LONGEST_NEW];
    let length = name_argument(rt, i, &mut new[..LONGEST_NAME])?;
    let end = length + ENDING.len();
    new[length..end].copy_from_slice(ENDING);
    write_named(rt, first(&new, length), first(&new, end), bytes)
}
