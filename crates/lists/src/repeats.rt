// Check 7: whether a code equals an earlier one.
ghost use Rattle.std.specs.List.{range_with_len, find};
ghost use Rattle.std.specs.Prelude.{◌≡◌, ◌-◌, ◌≤◌, ◌<◌, length, take, drop};
ghost use Rattle.counting.specs.Lists.{same};
ghost use Rattle.directory.specs.Codes.{code as code_of, repeated};

use crate::ends::{CodeList, Codes};
use records::codes::same_bytes;

impl CodeList<'_> {
    // Whether the bytes of the run from one place up to another are those of the code: as many, and the same.
    fn same_code(self, from: usize, to: usize, code: &[u8]) -> bool
        requires { (from ≤ to) × (to ≤ length self.run.now) }
        ensures { result ≡ same (take (to - from) (drop from self.entry.run.now)) code.now }
    {
        to - from == code.len() && same_bytes(self.run, from, code)
    }
}

impl Codes<'_> {
    // Whether code k equals an earlier one.
    fn equals_earlier(self, k: usize) -> bool
        requires { k < length self.list.ends.now }
        ensures { result ≡ repeated (code_of self.entry.list.run.now self.entry.list.ends.now) k }
    {
        let this = self.list.code(k);
        let mut from = 0;
        for end in &self.list.ends[..k] {
            let to = usize::from(*end);
            if self.list.same_code(from, to, this) {
                return true;
            }
            from = to;
        }
        false
    }

    // The lowest code that equals an earlier one, where one does.
    pub fn lowest_repeated(self) -> Option<usize>
        ensures { result ≡ find (repeated (code_of self.entry.list.run.now self.entry.list.ends.now)) (range_with_len 0 (length self.entry.list.ends.now)) }
    {
        (0..self.list.len()).find(|k| self.equals_earlier(*k))
    }
}
