// What is lent: the refusals 1 to 6, in their order.
ghost use Rattle.std.specs.Prelude.{◌≡◌};
ghost use Rattle.builder.specs.Decisions.{of_lent};
ghost use Rattle.builder.specs.Graphs.{lent_of};

use directory::{Header, Reason, Refused};
use lists::ends::CodeList;
use records::offsets::{POSITIONS, key_at};
use records::sizes::{arity_allowed, codes_allowed, part_allowed};

// A code list, the arity, the part size and the weights, as they are lent.
#[derive(Clone, Copy)]
pub(crate) struct Lent<'a> {
    pub list: CodeList<'a>,
    pub r: usize,
    pub v: usize,
    pub weights: &'a [u16],
}

impl Lent<'_> {
    // The first of the refusals 1 to 6 that applies, where one does.
    #[tactic(auto, unfolding(directory::specs::Building::lent_refusals, directory::specs::Refusals::first))]
    pub(crate) fn check(self, buffer: &[u8]) -> Result<(), Refused>
        ensures { result ≡ of_lent (lent_of self.entry buffer.now) }
    {
        if !arity_allowed(self.r) {
            return Err(Reason::WrongArity.at(0));
        }
        if !part_allowed(self.r, self.v) {
            return Err(Reason::WrongPartSize.at(0));
        }
        if self.weights.len() != POSITIONS * self.r {
            return Err(Reason::WrongWeights.at(0));
        }
        let n = self.list.len();
        if !codes_allowed(n) {
            return Err(Reason::TooManyCodes.at(0));
        }
        if let Some(k) = self.list.lowest_wrong() {
            return Err(Reason::WrongList.at(k));
        }
        if self.list.run_missed() {
            return Err(Reason::WrongList.at(n));
        }
        let header = Header {
            n,
            r: self.r,
            v: self.v,
        };
        let length = key_at(header, n);
        if buffer.len() < length {
            return Err(Reason::ShortBuffer.at(length));
        }
        Ok(())
    }
}
