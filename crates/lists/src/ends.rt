// A code list as it is lent: where its codes start and end, and the codes themselves.
ghost use Rattle.std.specs.Prelude.{◌≡◌, ◌≤◌, ◌<◌, length};
ghost use Rattle.counting.specs.Widths.{two_bytes};
ghost use Rattle.directory.specs.Codes.{start as start_of, end as end_of, code as code_of, Runs};
ghost use Rattle.directory.specs.Kind.{HD};
ghost use Rattle.lists.specs.Listed.{Listed};

// One run of bytes, and where in it each code ends.
#[derive(Clone, Copy)]
pub struct CodeList<'a> {
    pub run: &'a [u8],
    pub ends: &'a [u16],
}

impl<'a> CodeList<'a> {
    // How many codes there are.
    pub fn len(self) -> usize
        ensures { result ≡ length self.entry.ends.now }
    {
        self.ends.len()
    }

    // The end of code k.
    pub fn end(self, k: usize) -> usize
        requires { k < length self.ends.now }
        ensures { (result ≡ end_of self.entry.ends.now k) × (result < two_bytes) }
    {
        usize::from(self.ends[k])
    }

    // The start of code k: the end of the code before it, and 0 for the first.
    pub fn start(self, k: usize) -> usize
        requires { k ≤ length self.ends.now }
        ensures { (result ≡ start_of self.entry.ends.now k) × (result < two_bytes) }
    {
        if k == 0 { 0 } else { self.end(k - 1) }
    }

    // Code k, as a part of the run.
    pub fn code(self, k: usize) -> &'a [u8]
        requires inside { k < length self.ends.now }
        requires runs { Runs HD.positions self.run.now self.ends.now k }
        ensures { result.now ≡ code_of self.entry.run.now self.entry.ends.now k }
    {
        &self.run[self.start(k)..self.end(k)]
    }
}

// A code list that passes check 5: each code runs within the run and has 1 to 32 bytes.
#[derive(Clone, Copy)]
pub struct Codes<'a> {
    pub list: CodeList<'a>,
    pub ghost listed: { Listed list.run.now list.ends.now },
}
