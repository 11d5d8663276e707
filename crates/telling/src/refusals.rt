// Why something was refused, by its number.
use crate::{Tell, say, say_text};
use directory::Reason;

// The reasons that there are words for here.
const TOLD: [Reason; 16] = [
    Reason::WrongArity,
    Reason::WrongPartSize,
    Reason::WrongWeights,
    Reason::TooManyCodes,
    Reason::WrongList,
    Reason::ShortBuffer,
    Reason::RepeatedCode,
    Reason::Cyclic,
    Reason::WrongSize,
    Reason::WrongMark,
    Reason::WrongHeader,
    Reason::WrongValue,
    Reason::WrongRank,
    Reason::WrongKey,
    Reason::StrayCode,
    Reason::WrongCode,
];

// 1 to 8, of building.
fn say_building(rt: &impl Tell, reason: Reason, place: usize) {
    match reason {
        Reason::WrongArity => say(rt, b"; it must be 2 or 3"),
        Reason::WrongPartSize => say(rt, b"; it must be at least 1, and R times V at most 4096"),
        Reason::WrongWeights => say(rt, b"; there must be 64 where R is 2, and 96 where R is 3"),
        Reason::TooManyCodes => say(rt, b": more than 1024 codes"),
        Reason::WrongList => say(rt, b": a code has 1 to 32 bytes"),
        Reason::ShortBuffer => say_text(
            rt,
            format_args!(": the buffer is too short; {place} bytes are needed"),
        ),
        Reason::RepeatedCode => say(rt, b" stands in an earlier line too"),
        Reason::Cyclic => say_text(
            rt,
            format_args!(
                ": {place} codes are left over: each vertex that one of them names is named by another too, so they cannot be taken apart. Other weights or a larger V may serve"
            ),
        ),
        _ => (),
    }
}

// 9 to 16, of a file and of a code that is asked for.
fn say_reading(rt: &impl Tell, reason: Reason, place: usize) {
    match reason {
        Reason::WrongSize => say(
            rt,
            b": it is shorter than 7 bytes, or not as long as its header calls for",
        ),
        Reason::WrongMark => say_text(
            rt,
            format_args!(": the mark that should stand at byte {place} is not there"),
        ),
        Reason::WrongHeader => say(
            rt,
            b": the numbers in its header are outside the sizes that are allowed",
        ),
        Reason::WrongValue => say_text(
            rt,
            format_args!(
                ": the value of vertex {place} is over R; or, where the vertices end before it, a spare bit is set"
            ),
        ),
        Reason::WrongRank => say_text(
            rt,
            format_args!(
                ": rank entry {place} is wrong; or, where the entries end before it, the assigned vertices are not as many as the codes"
            ),
        ),
        Reason::WrongKey => say_text(
            rt,
            format_args!(
                ": the code of line {place} has not 1 to 32 bytes, or what follows it is not zero"
            ),
        ),
        Reason::StrayCode => say_text(
            rt,
            format_args!(": the code of line {place} does not lead to that line"),
        ),
        Reason::WrongCode => say(rt, b": a code has 1 to 32 bytes"),
        _ => (),
    }
}

// Goes on after the words for what was refused, and ends the line. By the number and no Reason, so that any may be told: one without words is told alone.
pub fn refused(rt: &impl Tell, number: u8, place: usize) {
    if let Some(reason) = TOLD.iter().find(|reason| reason.number() == number) {
        say_building(rt, *reason, place);
        say_reading(rt, *reason, place);
    }
    say_text(rt, format_args!(" (refusal {number})\n"));
}
