// The reports of a text, taken one after the other.
// The two lists stay two parameters: `sign::report` takes them so, as C lends them, and a struct of two `&mut` would have to say in each contract that both keep their reference and their length.
ghost use Rattle.std.specs.Prelude.{◌≡◌};
ghost use Rattle.sign.specs.Keeping.{lists};
ghost use Rattle.show_sign.specs.Taken.{after_line, after_text};

use crate::words::{tell_reported, tell_wrong};
use beginnings::first;
use sign::report;
use std::rt::Env;
use telling::Tell;
use texts::{MOST_KEPT, after_line, first_line, read_report};

// Line k: a report, or none. What is not accepted is told, and changes nothing.
fn take_report(
    rt: &(impl Env + Tell),
    file: &[u8],
    line: &[u8],
    k: usize,
    levels: &mut [u8],
    times: &mut [u8],
)
    ensures { lists levels.new times.new ≡ after_line file.now line.now (lists levels.old times.old) }
{
    let mut code = [0u8; MOST_KEPT];
    let Some(read) = read_report(line, &mut code) else {
        tell_wrong(rt, line, k);
        return;
    };
    let reported = report(
        file,
        first(&code, read.size),
        read.level,
        read.time,
        levels,
        times,
    );
    tell_reported(rt, line, k, reported);
}

// The lists are then as after each of them in turn.
pub fn take_reports(
    rt: &(impl Env + Tell),
    file: &[u8],
    text: &[u8],
    levels: &mut [u8],
    times: &mut [u8],
)
    ensures { lists levels.new times.new ≡ after_text file.now text.now (lists levels.old times.old) }
{
    let mut rest = text;
    // No text has more lines than bytes.
    for k in 0..text.len() {
        if rest.is_empty() {
            return;
        }
        take_report(rt, file, first_line(rest), k, levels, times);
        rest = after_line(rest);
    }
}
