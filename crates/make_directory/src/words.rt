// Why nothing was made.
use crate::arguments::{Asked, CODES, WEIGHTS};
use directory::{Reason, Refused};
use making::NotMade;
use std::rt::Env;
use telling::{Tell, Told, refused, say, say_argument, say_bytes, say_count, say_line, say_text};
use texts::{MOST_WORDS, WrongLine, WrongWord, line, read_weights, word};

// Line k of the codes.
fn say_code(rt: &(impl Env + Tell), codes: &[u8], k: usize) {
    say_line(rt, CODES, k, line(codes, k));
}

fn tell_wrong_line(rt: &(impl Env + Tell), codes: &[u8], k: usize) {
    say_code(rt, codes, k);
    say(
        rt,
        b" is not hex: after 0x come pairs of the digits 0 to 9 and a to f\n",
    );
}

fn tell_wrong_word(rt: &(impl Env + Tell), weights: &[u8], k: usize) {
    say_argument(rt, WEIGHTS);
    say(rt, b", number ");
    say_count(rt, k);
    say(rt, b": ");
    say_bytes(rt, word(weights, k));
    say(rt, b" is not a number from 0 to 65535\n");
}

// How many numbers the weights' file has; of more than are read, that there are more than the most weights.
fn say_weights(rt: &(impl Env + Tell), weights: &[u8]) {
    let mut numbers = [0u16; MOST_WORDS];
    let Ok(count) = read_weights(weights, &mut numbers) else {
        return;
    };
    say_argument(rt, WEIGHTS);
    match count {
        1 => say(rt, b" has 1 number"),
        MOST_WORDS => say(rt, b" has more than 96 numbers"),
        _ => say_text(rt, format_args!(" has {count} numbers")),
    }
}

// A refusal of building: first what was refused, and then why.
fn tell_refused(rt: &(impl Env + Tell), asked: &Asked, refusal: Refused) {
    match refusal.reason {
        Reason::WrongArity => say_text(rt, format_args!("R is {}", asked.r)),
        Reason::WrongPartSize => say_text(rt, format_args!("V is {}", asked.v)),
        Reason::WrongWeights => say_weights(rt, asked.weights),
        Reason::WrongList | Reason::RepeatedCode => say_code(rt, asked.codes, refusal.place),
        _ => say_argument(rt, CODES),
    }
    refused(rt, refusal.reason.number(), refusal.place);
}

pub fn tell_not_made(rt: &(impl Env + Tell), asked: &Asked, why: NotMade) -> Told {
    match why {
        NotMade::Line(WrongLine(k)) => tell_wrong_line(rt, asked.codes, k),
        NotMade::Word(WrongWord(k)) => tell_wrong_word(rt, asked.weights, k),
        NotMade::Refused(refusal) => tell_refused(rt, asked, refusal),
    }
    Told
}
