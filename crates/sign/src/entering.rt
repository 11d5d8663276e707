// The line that a call goes on with, or how it ends before: the directory's refusals, then the sign's own checks.
ghost use Rattle.std.specs.Prelude.{◌≡◌};
ghost use Rattle.sign.specs.Keeping.{fits};
ghost use Rattle.sign.specs.Calls.{lines_in, entered};

use crate::keeping::Lent;
use directory::{Reason, Refused};
use reader::{header, lookup};

// Whether the limit is right, which only asking brings, and the lists that are lent.
#[tactic(auto, using(crate::proofs::CallSteps::header_refused), unfolding(crate::specs::Calls::entered, crate::specs::Calls::gated, crate::specs::Calls::lines_in, directory::specs::Refusals::first))]
pub(crate) fn enter(
    file: &[u8],
    code: &[u8],
    limited: bool,
    lent: &Lent,
) -> Result<Option<usize>, Refused>
    ensures { result ≡ entered file.now code.now limited (fits (lines_in file.now) lent.now) }
{
    let found = lookup(file, code)?;
    if !limited {
        return Err(Reason::WrongLimit.at(0));
    }
    // looking up has seen the header; it is read again only here, so that what is refused before costs one look at it
    if !lent.fit(header(file)?.n) {
        return Err(Reason::WrongLists.at(0));
    }
    Ok(found)
}
