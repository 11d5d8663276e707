// Doing what vectors ask for: changes of what is held, and calls.
use crate::answers::{Built, Line, Meant, Opened, Shown, Told, say, say_bad, say_listing};
use crate::held::Held;
use crate::reading::Vector;
use crate::requests::Request;
use crate::signs::{ask, clear_lists, report};
use crate::sums::Sums;

// The next byte of the vectors.
pub fn step(rt: &impl Print, vector: &mut Vector, held: &mut Held, byte: u8) {
    if byte == b'\n' {
        if done(rt, vector, held).is_none() {
            say_bad(rt);
        }
        *vector = Vector::default();
    } else {
        vector.read(byte, held);
    }
}

// The end of a vector: what it asks for is done, if there is such a vector. The bytes and numbers that it brings are in their places already.
fn done(rt: &impl Print, vector: &Vector, held: &mut Held) -> Option<()> {
    held.code.keep(vector.count);
    let request = vector.request()?;
    let file = held.file.held();
    match request {
        Request::CutFile => held.file.resize(vector.last)?,
        Request::CountUp => count_up(held.file.held_mut(), u8::try_from(vector.last).ok()?),
        Request::Open => say(rt, Told(reader::open(file).map(Opened))),
        Request::Header => say(rt, Told(reader::header(file).map(Opened))),
        Request::Lookup => {
            let found = reader::lookup(file, held.code.held());
            say(rt, Told(found.map(|line| Line("at", line))));
        }
        Request::Show => say(rt, Shown(reader::show(file, vector.last))),
        Request::List => say_listing(rt, file),
        Request::Dump => say(rt, Shown(file)),
        Request::Length => {
            let length = reader::length(vector.first, vector.second, vector.last);
            say(rt, format_args!("length {length}"));
        }
        Request::Refusal => say(rt, Meant(u8::try_from(vector.last).ok()?)),
        Request::Run => held.run.keep(vector.count),
        Request::CutRun => held.run.resize(vector.last)?,
        Request::Ends => held.ends.keep(vector.blanks),
        Request::Weights => held.weights.keep(vector.blanks),
        Request::Build => build(rt, vector, held),
        Request::ClearLists => clear_lists(held, vector.last)?,
        Request::CutLevels => held.levels.resize(vector.last)?,
        Request::CutTimes => held.times.resize(vector.last)?,
        Request::Report => report(rt, vector, held)?,
        Request::Ask => ask(rt, vector, held)?,
        Request::Comment
        | Request::PatchFile
        | Request::PatchLevels
        | Request::PatchTimes
        | Request::Nothing => (),
    }
    Some(())
}

// The bytes become this one, the next and so on; after the largest comes 0.
fn count_up(bytes: &mut [u8], first: u8) {
    let mut next = first;
    for byte in bytes.iter_mut() {
        *byte = next;
        next = next.wrapping_add(1);
    }
}

// The build that a vector asks for, in all of the file, which gets the length that the vector names.
fn build(rt: &impl Print, vector: &Vector, held: &mut Held) {
    // a length that the file cannot have changes nothing, and the build goes on
    if held.file.resize(vector.last).is_none() {
        say_bad(rt);
    }
    let built = builder::build(
        held.run.held(),
        held.ends.held(),
        vector.first,
        vector.second,
        held.weights.held(),
        held.file.held_mut(),
    );
    let told = Told(built.map(Built));
    let sums = Sums::of(held.file.held());
    say(rt, format_args!("{told} {sums}"));
}
