// What a line's last report makes of a report and of a question.
ghost use Rattle.std.specs.Prelude.{◌≡◌};
ghost use Rattle.directory.specs.Refusals.{ok_unless};
ghost use Rattle.sign.specs.Rules.{last_of, report_refusals, ask_refusals, judged, limit_allowed};

use crate::levels::in_range;
use crate::{Answer, Reading};
use directory::{Reason, Refused};

// The longest limit in seconds, a day.
const LONGEST_LIMIT: u32 = 86_400;

// What the numbers at a line's place mean.
#[tactic(auto, unfolding(crate::specs::Rules::last_of))]
pub(crate) fn last_of(stored: Reading) -> Option<Reading>
    ensures { result ≡ last_of stored.level stored.time }
{
    in_range(stored.level).then_some(stored)
}

// Whether a line takes a report, or why not: an equal time replaces.
#[tactic(auto, unfolding(directory::specs::Refusals::first))]
pub(crate) fn tell(last: Option<Reading>, report: Reading) -> Result<(), Refused>
    ensures { result ≡ ok_unless tt (report_refusals last report.level report.time) }
{
    if !in_range(report.level) {
        return Err(Reason::WrongLevel.at(0));
    }
    if last.is_some_and(|heard| report.time < heard.time) {
        return Err(Reason::EarlierTime.at(0));
    }
    Ok(())
}

// A question at a line. The moment and the limit stay two parameters: a struct of them would be made in `ask` for this call alone.
#[tactic(auto, unfolding(directory::specs::Refusals::first))]
pub(crate) fn answer(last: Option<Reading>, moment: u32, limit: u32) -> Result<Answer, Refused>
    ensures { result ≡ ok_unless (judged last moment limit) (ask_refusals last moment) }
{
    let Some(heard) = last else {
        return Ok(Answer::Never);
    };
    if moment < heard.time {
        return Err(Reason::EarlierNow.at(0));
    }
    let age = moment - heard.time;
    if age <= limit {
        Ok(Answer::Fresh(heard.level))
    } else {
        Ok(Answer::Stale(heard.level, age))
    }
}

// Whether a limit is from 1 to 86,400 seconds.
#[tactic(auto, unfolding(crate::specs::Rules::limit_allowed))]
pub(crate) fn limit_allowed(limit: u32) -> bool
    ensures { result ≡ limit_allowed limit }
{
    (1..=LONGEST_LIMIT).contains(&limit)
}
