// Reporting and asking. Each call takes any bytes and numbers, as the C interface hands them on, and looks at them itself.
ghost use Rattle.std.specs.Prelude.{◌≡◌};
ghost use Rattle.sign.specs.Rules.{a_report, a_question, told};
ghost use Rattle.sign.specs.Keeping.{Room, lists, last_at, kept};
ghost use Rattle.sign.specs.Calls.{report_of, after_report, ask_of};

use crate::entering::enter;
use crate::keeping::{Lent, heard, keep};
use crate::rules::{answer, limit_allowed, tell};
use crate::{Answer, Reading};
use directory::Refused;

// A report at its line: kept if it is accepted.
#[tactic(auto, using(crate::proofs::KeepingLaws::heard_room, crate::proofs::RuleLaws::told_refused, crate::proofs::RuleLaws::told_passed), unfolding(crate::specs::Keeping::kept))]
fn report_at(
    line: usize,
    report: Reading,
    levels: &mut [u8],
    times: &mut [u8],
) -> Result<Option<usize>, Refused>
    requires { Room line levels.old times.old }
    ensures given { result ≡ told (last_at (lists levels.old times.old) line) line report.level report.time }
    ensures stored { lists levels.new times.new ≡ kept result report.level report.time (lists levels.old times.old) }
{
    tell(heard(line, levels, times), report)?;
    keep(line, report, levels, times);
    Ok(Some(line))
}

// A report of a code's level at a time: the line that was renewed, or none where the code is unknown. A refused or unknown one changes no byte.
#[tactic(auto, using(crate::proofs::CallSteps::entered_room), unfolding(crate::specs::Calls::report_of, crate::specs::Calls::after_report, crate::specs::Calls::on_line, crate::specs::Keeping::kept))]
pub fn report(
    file: &[u8],
    code: &[u8],
    level: i32,
    time: u32,
    levels: &mut [u8],
    times: &mut [u8],
) -> Result<Option<usize>, Refused>
    ensures given { result ≡ report_of file.now (a_report code.now level time) (lists levels.old times.old) }
    ensures stored { lists levels.new times.new ≡ after_report file.now (a_report code.now level time) (lists levels.old times.old) }
{
    let Some(line) = enter(file, code, true, &Lent { levels, times })? else {
        return Ok(None);
    };
    report_at(line, Reading { level, time }, levels, times)
}

// What the sign knows of a code at a moment, which the documents call now: nothing where the code is unknown.
#[tactic(auto, using(crate::proofs::CallSteps::entered_room, crate::proofs::KeepingLaws::heard_room), unfolding(crate::specs::Calls::ask_of, crate::specs::Calls::on_line, crate::specs::Rules::answered, directory::specs::Refusals::first))]
pub fn ask(
    file: &[u8],
    code: &[u8],
    moment: u32,
    limit: u32,
    levels: &[u8],
    times: &[u8],
) -> Result<Option<Answer>, Refused>
    ensures { result ≡ ask_of file.now (a_question code.now moment limit) (lists levels.now times.now) }
{
    let lent = Lent { levels, times };
    let Some(line) = enter(file, code, limit_allowed(limit), &lent)? else {
        return Ok(None);
    };
    let answer = answer(lent.last(line), moment, limit)?;
    Ok(Some(answer))
}
