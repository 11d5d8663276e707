// The last reports, kept in two lists: the levels and the times, one place a line.
ghost use Rattle.std.specs.Prelude.{◌≡◌};
ghost use Rattle.sign.specs.Keeping.{Lists, Room, lists, fits, heard_at, keep as keepAt};

use crate::Reading;
use crate::places::{PLACE, number_at, put_number};
use crate::rules::last_of;
use std::marker::Model;

// The two lists as they are lent for reading.
#[derive(Drop)]
pub(crate) struct Lent<'a> {
    pub(crate) levels: &'a [u8],
    pub(crate) times: &'a [u8],
}

impl<'a> Model for Lent<'a> {
    ghost Value = { Lists };

    ghost view = { λ l. lists l.levels.now l.times.now };
}

impl Lent<'_> {
    // Whether each has n places and no more.
    #[tactic(auto, unfolding(crate::specs::Keeping::fits))]
    pub(crate) fn fit(&self, n: usize) -> bool
        ensures { result ≡ fits n self.now }
    {
        let wanted = PLACE.checked_mul(n);
        wanted == Some(self.levels.len()) && wanted == Some(self.times.len())
    }

    // The last report of a line; none where a list has no such place.
    #[tactic(auto, unfolding(crate::specs::Keeping::heard_at, crate::specs::Keeping::last_at))]
    pub(crate) fn last(&self, line: usize) -> Option<Reading>
        ensures { result ≡ heard_at self.now line }
    {
        let level = number_at(self.levels, line)?.cast_signed();
        let time = number_at(self.times, line)?;
        last_of(Reading { level, time })
    }
}

// The last report of a line as the lists have it; none where they have no such place. The lists come one by one, as in reporting and asking.
pub fn heard(line: usize, levels: &[u8], times: &[u8]) -> Option<Reading>
    ensures { result ≡ heard_at (lists levels.now times.now) line }
{
    Lent { levels, times }.last(line)
}

// Puts a report at a line. The two lists that are written stay two parameters: a struct of them would be the twin of `Lent`, for two short functions.
#[tactic(auto, unfolding(crate::specs::Keeping::keep))]
pub(crate) fn keep(line: usize, report: Reading, levels: &mut [u8], times: &mut [u8])
    requires { Room line levels.old times.old }
    ensures { lists levels.new times.new ≡ keepAt (lists levels.old times.old) line report.level report.time }
{
    put_number(levels, line, report.level.cast_unsigned());
    put_number(times, line, report.time);
}
