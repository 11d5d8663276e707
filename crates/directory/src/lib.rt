// What a directory is: the answers here, and their meaning in specs/.
#![tactic(auto)]

ghost use Rattle.std.specs.Prelude.{◌≡◌};
ghost use Rattle.directory.specs.Refusals.{number_of, refused_at};

// The numbers of a file's header: how many codes, the arity and the part size. The default is all 0, which no file has.
#[derive(Clone, Copy, Debug, Default, PartialEq, Eq)]
pub struct Header {
    pub n: usize,
    pub r: usize,
    pub v: usize,
}

// Why a call refuses, by the numbers of documents 01 and 02.
#[derive(Clone, Copy, Debug, PartialEq, Eq)]
pub enum Reason {
    // of building
    WrongArity = 1,
    WrongPartSize = 2,
    WrongWeights = 3,
    TooManyCodes = 4,
    WrongList = 5,
    ShortBuffer = 6,
    RepeatedCode = 7,
    Cyclic = 8,
    // of a file and of a code that is asked for
    WrongSize = 9,
    WrongMark = 10,
    WrongHeader = 11,
    WrongValue = 12,
    WrongRank = 13,
    WrongKey = 14,
    StrayCode = 15,
    WrongCode = 16,
    // of the sign
    WrongLevel = 17,
    EarlierTime = 18,
    EarlierNow = 19,
    WrongLimit = 22,
    WrongLists = 23,
}

impl Reason {
    // The refusal for this reason at a place.
    pub fn at(self, place: usize) -> Refused
        ensures { result ≡ refused_at self place }
    {
        Refused {
            reason: self,
            place,
        }
    }

    // Its number in the documents.
    pub fn number(self) -> u8
        ensures { result ≡ number_of self }
    {
        self as u8
    }
}

// A refusal: its reason and its place.
#[derive(Clone, Copy, Debug, PartialEq, Eq)]
pub struct Refused {
    pub reason: Reason,
    pub place: usize,
}

// A part of a file: where it starts, and how many bytes it has.
#[derive(Clone, Copy, Debug, PartialEq, Eq)]
pub struct Part {
    pub start: usize,
    pub size: usize,
}

impl Part {
    // The file's empty beginning.
    pub const EMPTY: Part = Part { start: 0, size: 0 };
}

// Where a code leads by the stored values: to no line, to a line below n, or by a rank entry to a line of n or more. No Result: past the last line is a refusal to looking up alone.
#[derive(Clone, Copy, Debug, PartialEq, Eq)]
pub enum Lead {
    Nowhere,
    ToLine(usize),
    PastLast(usize),
}

// The group that a refusal number belongs to. NoRefusal is a case and no None: directory.Answers.group_of and Witnesses.groups_are have it.
#[derive(Clone, Copy, Debug, PartialEq, Eq)]
pub enum RefusalGroup {
    Building,
    Opening,
    LookingUp,
    Sign,
    NoRefusal,
}

// What the place of a refusal is.
#[derive(Clone, Copy, Debug, PartialEq, Eq)]
pub enum PlaceMeaning {
    Nothing,
    Code,
    LengthNeeded,
    CodesLeft,
    Offset,
    Vertex,
    RankEntry,
    Line,
}
