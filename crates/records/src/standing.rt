// A file with the numbers of its header, by what is known to stand in it.
ghost use Rattle.std.specs.Prelude.{◌≤◌, length};
ghost use Rattle.directory.specs.Kind.{HD};
ghost use Rattle.directory.specs.Whole.{Framed};
ghost use Rattle.records.specs.Standing.{most_bytes, Tabled, Keyed};

use directory::Header;

// r and v are within the sizes, and the records before KY stand within the file.
#[derive(Clone, Copy)]
pub struct Tables<'a> {
    pub file: &'a [u8],
    pub header: Header,
    pub ghost tabled: { Tabled header file.now },
}

// The same, and the KY record of a line too.
#[derive(Clone, Copy)]
pub struct KeyRecord<'a> {
    pub file: &'a [u8],
    pub header: Header,
    pub line: usize,
    pub ghost keyed: { Keyed header line file.now },
}

// The first mark and the numbers are right, and the file has the length that they call for.
#[derive(Clone, Copy)]
pub struct Directory<'a> {
    pub file: &'a [u8],
    pub header: Header,
    pub ghost framed: { Framed HD header file.now },
}

// Bytes that are no longer than a code may be.
#[derive(Clone, Copy)]
pub struct Code<'a> {
    pub bytes: &'a [u8],
    pub ghost short: { length bytes.now ≤ most_bytes },
}

impl<'a> Directory<'a> {
    ghost use Rattle.std.specs.Prelude.{◌≡◌, ◌<◌};

    // The records before KY.
    #[tactic(auto, using(crate::proofs::FramedLaws::framed_tabled))]
    pub fn tables(self) -> Tables<'a>
        ensures same_file { result.file.now ≡ self.entry.file.now }
        ensures same_header { result.header ≡ self.entry.header }
    {
        let Directory { file, header } = self;
        Tables { file, header }
    }

    // The KY record of a line.
    #[tactic(auto, using(crate::proofs::FramedLaws::framed_keyed))]
    pub fn key(self, line: usize) -> KeyRecord<'a>
        requires { line < self.header.n }
        ensures same_file { result.file.now ≡ self.entry.file.now }
        ensures same_header { result.header ≡ self.entry.header }
        ensures its_line { result.line ≡ line }
    {
        let Directory { file, header } = self;
        KeyRecord { file, header, line }
    }
}
