// What is wrong with a report, with the limit or with the file.
use crate::arguments::{FILE, REPORTS};
use directory::{Reason, Refused};
use std::rt::Env;
use telling::{Tell, Told, refused, say, say_argument, say_line, say_text};

// A file that does not open.
pub fn tell_file(rt: &(impl Env + Tell), why: Refused) -> Told {
    say_argument(rt, FILE);
    refused(rt, why.reason.number(), why.place);
    Told
}

// A limit that asking refuses.
pub fn tell_limit(rt: &impl Tell, limit: u32, why: Refused) -> Told {
    say(rt, b"LIMIT is ");
    say_text(rt, limit);
    say(rt, b"; it must be 1 to 86400");
    refused(rt, why.reason.number(), why.place);
    Told
}

// Line k of the reports, which is none.
pub fn tell_wrong(rt: &(impl Env + Tell), line: &[u8], k: usize) {
    say_line(rt, REPORTS, k, line);
    say(
        rt,
        b" is not a report: a code, a level in millimetres and a time in seconds\n",
    );
}

// Line k, a report of a code that the file does not have.
fn tell_unknown(rt: &(impl Env + Tell), line: &[u8], k: usize) {
    say_line(rt, REPORTS, k, line);
    say(rt, b": not a code of this directory\n");
}

// Line k, a report that is refused.
fn tell_refused(rt: &(impl Env + Tell), line: &[u8], k: usize, why: Refused) {
    say_line(rt, REPORTS, k, line);
    match why.reason {
        Reason::WrongLevel => say(rt, b": the level is not -20000 to 20000"),
        Reason::EarlierTime => say(rt, b": its time is before the last report of its line"),
        _ => (),
    }
    refused(rt, why.reason.number(), why.place);
}

// What became of the report in line k, unless it was accepted.
pub fn tell_reported(
    rt: &(impl Env + Tell),
    line: &[u8],
    k: usize,
    reported: Result<Option<usize>, Refused>,
) {
    match reported {
        Ok(Some(_)) => (),
        Ok(None) => tell_unknown(rt, line, k),
        Err(why) => tell_refused(rt, line, k, why),
    }
}
