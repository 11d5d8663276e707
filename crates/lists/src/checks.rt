// Check 5: whether each end stands where an end may, and the last at the end of the run.
ghost use Rattle.std.specs.List.{range_with_len, find};
ghost use Rattle.std.specs.Prelude.{◌≡◌, ◌<◌, length};
ghost use Rattle.directory.specs.Codes.{wrong_code, run_missed};
ghost use Rattle.directory.specs.Kind.{HD};

use crate::ends::CodeList;
use records::offsets::POSITIONS;

impl CodeList<'_> {
    // Whether the end of code k falls or passes the run, or the code is empty or over 32 bytes. An end that is not past the start falls or leaves the code empty.
    fn wrong_code(self, k: usize) -> bool
        requires { k < length self.ends.now }
        ensures { result ≡ wrong_code HD.positions self.entry.run.now self.entry.ends.now k }
    {
        let from = self.start(k);
        let to = self.end(k);
        to <= from || self.run.len() < to || from + POSITIONS < to
    }

    // The lowest such code, where there is one.
    pub fn lowest_wrong(self) -> Option<usize>
        ensures { result ≡ find (wrong_code HD.positions self.entry.run.now self.entry.ends.now) (range_with_len 0 (length self.entry.ends.now)) }
    {
        (0..self.len()).find(|k| self.wrong_code(*k))
    }

    // Whether the last end, or 0 where there are no codes, misses the length of the run.
    pub fn run_missed(self) -> bool
        ensures { result ≡ run_missed self.entry.run.now self.entry.ends.now }
    {
        self.start(self.len()) != self.run.len()
    }
}
