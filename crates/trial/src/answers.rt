// The answers of the calls, as the second program writes them.
use directory::{Header, PlaceMeaning, RefusalGroup, Refused};
use listing::{LONGEST_LISTING, list};
use reader::{group_of, meaning_of};
use sign::Answer;
use std::fmt;
use std::fmt::Display;

// A line. Where standard output takes nothing, nobody can be told.
pub fn say(rt: &impl Print, answer: impl Display + Drop) {
    let _ = rt.println(answer);
}

// The lister's lines.
pub fn say_listing(rt: &impl Print, file: &[u8]) {
    let mut text = [0; LONGEST_LISTING];
    let size = list(file, &mut text);
    let _ = rt.write_all(&text[..size]);
}

pub fn say_bad(rt: &impl Print) {
    say(rt, "bad vector");
}

// What a call answers, or why it refuses.
#[derive(Drop)]
pub struct Told<T>(pub Result<T, Refused>);

impl<T: Display> Display for Told<T> {
    fn fmt<W: fmt::Write>(&self, f: &mut fmt::Formatter<W>) -> fmt::Result {
        match &self.0 {
            Ok(answer) => answer.fmt(f),
            Err(Refused { reason, place }) => write!(f, "refused {} {place}", reason.number()),
        }
    }
}

#[derive(Drop)]
pub struct Opened(pub Header);

impl Display for Opened {
    fn fmt<W: fmt::Write>(&self, f: &mut fmt::Formatter<W>) -> fmt::Result {
        let Header { n, r, v } = self.0;
        write!(f, "opened {n} {r} {v}")
    }
}

// A line behind the word for it; none where the code is no code of the file.
#[derive(Drop)]
pub struct Line(pub &'static str, pub Option<usize>);

impl Display for Line {
    fn fmt<W: fmt::Write>(&self, f: &mut fmt::Formatter<W>) -> fmt::Result {
        match self.1 {
            Some(line) => write!(f, "{} {line}", self.0),
            None => f.write_str("unknown"),
        }
    }
}

// The bytes of a code or a file. Nothing is shown by no bytes: a code that is shown is never empty.
#[derive(Drop)]
pub struct Shown<'a>(pub &'a [u8]);

impl Display for Shown<'_> {
    fn fmt<W: fmt::Write>(&self, f: &mut fmt::Formatter<W>) -> fmt::Result {
        if self.0.is_empty() {
            return f.write_str("nothing");
        }
        f.write_str("shown ")?;
        for byte in self.0 {
            write!(f, "{byte:02x}")?;
        }
        Ok(())
    }
}

// A build, with the most codes waiting at once.
#[derive(Drop)]
pub struct Built(pub usize);

impl Display for Built {
    fn fmt<W: fmt::Write>(&self, f: &mut fmt::Formatter<W>) -> fmt::Result {
        write!(f, "built {}", self.0)
    }
}

// What the sign says of a code; none where it is no code of the file.
#[derive(Drop)]
pub struct Asked(pub Option<Answer>);

impl Display for Asked {
    fn fmt<W: fmt::Write>(&self, f: &mut fmt::Formatter<W>) -> fmt::Result {
        match self.0 {
            Some(Answer::Never) => f.write_str("never"),
            Some(Answer::Fresh(level)) => write!(f, "fresh {level}"),
            Some(Answer::Stale(level, age)) => write!(f, "stale {level} {age}"),
            None => f.write_str("unknown"),
        }
    }
}

// What a refusal number means.
#[derive(Drop)]
pub struct Meant(pub u8);

impl Display for Meant {
    fn fmt<W: fmt::Write>(&self, f: &mut fmt::Formatter<W>) -> fmt::Result {
        let group = match group_of(self.0) {
            RefusalGroup::Building => "building",
            RefusalGroup::Opening => "opening",
            RefusalGroup::LookingUp => "looking-up",
            RefusalGroup::Sign => "sign",
            RefusalGroup::NoRefusal => "none",
        };
        let place = match meaning_of(self.0) {
            PlaceMeaning::Nothing => "nothing",
            PlaceMeaning::Code => "code",
            PlaceMeaning::LengthNeeded => "length-needed",
            PlaceMeaning::CodesLeft => "codes-left",
            PlaceMeaning::Offset => "offset",
            PlaceMeaning::Vertex => "vertex",
            PlaceMeaning::RankEntry => "rank-entry",
            PlaceMeaning::Line => "line",
        };
        write!(f, "group {group} {place}")
    }
}
