// The answers as C has them, each made of the answer of the proved call.
ghost use Rattle.std.specs.Prelude.{◌≡◌};
ghost use Rattle.directory.specs.Answers.{built_numbers, opening_numbers, found_numbers};
ghost use Rattle.sign.specs.Answers.{reported_numbers, answer_numbers};
ghost use Rattle.dronesickle.specs.Numbers.{counted, opened, found, part, reported, asked};

use directory::{Header, Part, Refused};
use sign::Answer;

// A build's answer: success is 0, or a refusal's number, and its place.
#[repr(C)]
#[derive(Clone, Copy)]
pub struct DsAnswer {
    pub number: u32,
    pub place: usize,
}

// A build's answer with the most codes that waited at once, which is 0 on refusal.
#[repr(C)]
#[derive(Clone, Copy)]
pub struct DsCounted {
    pub number: u32,
    pub place: usize,
    pub most_waiting: usize,
}

// An opening's answer: success is 0, or a refusal's number, and its place; the file's n, r and v, all 0 on refusal.
#[repr(C)]
#[derive(Clone, Copy)]
pub struct DsOpened {
    pub number: u32,
    pub place: usize,
    pub n: usize,
    pub r: usize,
    pub v: usize,
}

// A lookup's answer: the kind, 0 At, 1 Unknown, 2 Refused; a refusal's number and place; the line of an At.
#[repr(C)]
#[derive(Clone, Copy)]
pub struct DsFound {
    pub kind: u32,
    pub number: u32,
    pub place: usize,
    pub line: usize,
}

// A part of a file: the offset of its first byte, and how many bytes it has.
#[repr(C)]
#[derive(Clone, Copy)]
pub struct DsPart {
    pub start: usize,
    pub length: usize,
}

// A report's answer: the kind, 1 Unknown, 2 Refused, 3 Accepted; a refusal's number and place; the line of an Accepted.
#[repr(C)]
#[derive(Clone, Copy)]
pub struct DsReported {
    pub kind: u32,
    pub number: u32,
    pub place: usize,
    pub line: usize,
}

// A question's answer: the kind, 1 Unknown, 2 Refused, 4 Never, 5 Fresh, 6 Stale; a refusal's number and place; the level of a Fresh or Stale, and the age of a Stale.
#[repr(C)]
#[derive(Clone, Copy)]
pub struct DsAsked {
    pub kind: u32,
    pub number: u32,
    pub place: usize,
    pub level: i32,
    pub age: u32,
}

// The kinds of answers. C has them as numbers: a struct of C holds no enum of Rattle.
#[derive(Clone, Copy)]
enum Kind {
    At = 0,
    Unknown = 1,
    Refused = 2,
    Accepted = 3,
    Never = 4,
    Fresh = 5,
    Stale = 6,
}

impl From<Result<usize, Refused>> for DsCounted {
    ghost from_gives = { λ built answer. answer ≡ counted (built_numbers built) };

    fn from(built: Result<usize, Refused>) -> DsCounted {
        match built {
            Ok(most) => DsCounted {
                number: 0,
                place: 0,
                most_waiting: most,
            },
            Err(why) => DsCounted {
                number: why.reason.number() as u32,
                place: why.place,
                most_waiting: 0,
            },
        }
    }
}

impl From<Result<Header, Refused>> for DsOpened {
    ghost from_gives = { λ opening answer. answer ≡ opened (opening_numbers opening) };

    fn from(opening: Result<Header, Refused>) -> DsOpened {
        match opening {
            Ok(header) => DsOpened {
                number: 0,
                place: 0,
                n: header.n,
                r: header.r,
                v: header.v,
            },
            Err(why) => DsOpened {
                number: why.reason.number() as u32,
                place: why.place,
                n: 0,
                r: 0,
                v: 0,
            },
        }
    }
}

impl From<Result<Option<usize>, Refused>> for DsFound {
    ghost from_gives = { λ looked answer. answer ≡ found (found_numbers looked) };

    fn from(looked: Result<Option<usize>, Refused>) -> DsFound {
        let (kind, number, place, line) = match looked {
            Ok(Some(line)) => (Kind::At, 0, 0, line),
            Ok(None) => (Kind::Unknown, 0, 0, 0),
            Err(why) => (Kind::Refused, why.reason.number() as u32, why.place, 0),
        };
        DsFound {
            kind: kind as u32,
            number,
            place,
            line,
        }
    }
}

impl From<Part> for DsPart {
    ghost from_gives = { λ shown answer. answer ≡ part shown };

    fn from(shown: Part) -> DsPart {
        DsPart {
            start: shown.start,
            length: shown.size,
        }
    }
}

// As for a lookup, but for the kind that has a line: C has two structs, and each contract has its own numbers; a function for both would need a definition and laws of its own, and be no shorter.
impl From<Result<Option<usize>, Refused>> for DsReported {
    ghost from_gives = { λ told answer. answer ≡ reported (reported_numbers told) };

    fn from(told: Result<Option<usize>, Refused>) -> DsReported {
        let (kind, number, place, line) = match told {
            Ok(Some(line)) => (Kind::Accepted, 0, 0, line),
            Ok(None) => (Kind::Unknown, 0, 0, 0),
            Err(why) => (Kind::Refused, why.reason.number() as u32, why.place, 0),
        };
        DsReported {
            kind: kind as u32,
            number,
            place,
            line,
        }
    }
}

impl From<Result<Option<Answer>, Refused>> for DsAsked {
    ghost from_gives = { λ told answer. answer ≡ asked (answer_numbers told) };

    fn from(told: Result<Option<Answer>, Refused>) -> DsAsked {
        let (kind, number, place, level, age) = match told {
            Ok(Some(Answer::Never)) => (Kind::Never, 0, 0, 0, 0),
            Ok(Some(Answer::Fresh(level))) => (Kind::Fresh, 0, 0, level, 0),
            Ok(Some(Answer::Stale(level, age))) => (Kind::Stale, 0, 0, level, age),
            Ok(None) => (Kind::Unknown, 0, 0, 0, 0),
            Err(why) => (Kind::Refused, why.reason.number() as u32, why.place, 0, 0),
        };
        DsAsked {
            kind: kind as u32,
            number,
            place,
            level,
            age,
        }
    }
}
