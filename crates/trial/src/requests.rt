// What vectors ask for (second/src/vectors.rs says what each letter means), and the fields that they have for it.

// So many fields a vector of another letter has, which asks for nothing: more than any letter has that has a certain number of them. With another number it is a bad vector.
const OTHER_FIELDS: usize = 4;

// What a vector asks for.
#[derive(Clone, Copy)]
pub enum Request {
    Comment,
    // of the file: its length, its bytes, and those that count up
    CutFile,
    PatchFile,
    CountUp,
    // of a reader
    Open,
    Header,
    Lookup,
    Show,
    List,
    Dump,
    Length,
    Refusal,
    // of a build
    Run,
    CutRun,
    Ends,
    Weights,
    Build,
    // of the sign
    ClearLists,
    CutLevels,
    CutTimes,
    PatchLevels,
    PatchTimes,
    Report,
    Ask,
    // of any other letter
    Nothing,
}

// A zero byte is no letter, and the next byte is.
#[derive(Drop)]
pub struct NoLetter;

impl TryFrom<u8> for Request {
    type Error = NoLetter;

    fn try_from(letter: u8) -> Result<Self, NoLetter> {
        match letter {
            0 => Err(NoLetter),
            b'#' => Ok(Request::Comment),
            b'C' => Ok(Request::CutFile),
            b'P' => Ok(Request::PatchFile),
            b'F' => Ok(Request::CountUp),
            b'O' => Ok(Request::Open),
            b'H' => Ok(Request::Header),
            b'L' => Ok(Request::Lookup),
            b'S' => Ok(Request::Show),
            b'T' => Ok(Request::List),
            b'D' => Ok(Request::Dump),
            b'N' => Ok(Request::Length),
            b'G' => Ok(Request::Refusal),
            b'R' => Ok(Request::Run),
            b'Z' => Ok(Request::CutRun),
            b'E' => Ok(Request::Ends),
            b'W' => Ok(Request::Weights),
            b'B' => Ok(Request::Build),
            b'K' => Ok(Request::ClearLists),
            b'V' => Ok(Request::CutLevels),
            b'U' => Ok(Request::CutTimes),
            b'X' => Ok(Request::PatchLevels),
            b'Y' => Ok(Request::PatchTimes),
            b'A' => Ok(Request::Report),
            b'Q' => Ok(Request::Ask),
            _ => Ok(Request::Nothing),
        }
    }
}

impl Request {
    // Whether a vector may have so many fields. The empty code and the empty run have none; lists have any number.
    pub fn takes(self, fields: usize) -> bool {
        match self {
            Request::Comment | Request::Open | Request::Header | Request::List | Request::Dump =>
                fields == 0,
            Request::Lookup | Request::Run => fields <= 1,
            Request::CutFile
            | Request::CountUp
            | Request::Show
            | Request::Refusal
            | Request::CutRun
            | Request::ClearLists
            | Request::CutLevels
            | Request::CutTimes => fields == 1,
            Request::PatchFile | Request::PatchLevels | Request::PatchTimes => fields == 2,
            Request::Length | Request::Build | Request::Report | Request::Ask => fields == 3,
            Request::Ends | Request::Weights => true,
            Request::Nothing => fields == OTHER_FIELDS,
        }
    }

    // Whether a field holds bytes.
    pub fn holds_bytes(self, field: usize) -> bool {
        matches!(
            (self, field),
            (
                Request::Lookup | Request::Run | Request::Report | Request::Ask,
                1
            ) | (
                Request::PatchFile | Request::PatchLevels | Request::PatchTimes,
                2
            )
        )
    }

    // Whether a field holds a level, which may have a minus before it.
    pub fn holds_level(self, field: usize) -> bool {
        matches!((self, field), (Request::Report, 2))
    }
}
