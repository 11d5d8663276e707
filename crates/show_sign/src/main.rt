// Shows the sign of a directory file after the reports of a text: show_sign FILE REPORTS NOW LIMIT. NOW and LIMIT are in seconds.
#![tactic(auto)]

mod arguments; // arguments.rt: what the arguments are, and room for the text of the reports
mod words; // words.rt: what is wrong with a report, with the limit or with the file
mod lists; // lists.rt: the lists of levels and times, cleared
mod reports; // reports.rt: the reports, taken one after the other

ghost use Rattle.std.specs.Prelude.{◌≡◌, ◌≤◌, length};
ghost use Rattle.directory.specs.Sizes.{most_codes};
ghost use Rattle.sign.specs.Places.{place_at};
ghost use Rattle.sign.specs.Keeping.{lists, cleared};
ghost use Rattle.show_sign.specs.Taken.{after_text};

use arguments::{ARGUMENTS, FILE, LIMIT, LONGEST_TEXT, NOW, REPORTS, TEXT_ROOM};
use beginnings::first;
use directory::Reason;
use files::{LONGEST_FILE, read_argument};
use given::{number_argument, text_argument};
use lists::{MOST_BYTES, clear};
use reader::open;
use reports::take_reports;
use rows::{LONGEST_SIGN, Sign, put_rows};
use sign::{PLACE, ask};
use std::rt::{Env, Files};
use telling::{Tell, Told, argument_count, say, say_failed};
use texts::MOST_TIME;
use words::{tell_file, tell_limit};

// What is asked for: a file that opens, with its n lines, the text of the reports, the moment and the limit.
#[derive(Clone, Copy)]
struct Asked<'a> {
    file: &'a [u8],
    n: usize,
    reports: &'a [u8],
    moment: u32,
    limit: u32,
    ghost few: { n ≤ most_codes },
}

// Sees that asking takes a limit. It looks at the limit before it looks for the line, so any code of a byte will do.
fn check_limit(rt: &impl Tell, file: &[u8], limit: u32) -> Result<(), Told> {
    match ask(file, b"-", 0, limit, b"", b"") {
        Err(why) if why.reason == Reason::WrongLimit => Err(tell_limit(rt, limit, why)),
        _ => Ok(()),
    }
}

fn print_sign(rt: &(impl Print + Tell), asked: Asked, levels: &[u8], times: &[u8]) {
    let sign = Sign {
        file: asked.file,
        moment: asked.moment,
        limit: asked.limit,
        levels,
        times,
    };
    let mut text = [0u8; LONGEST_SIGN];
    let size = put_rows(&mut text, sign, asked.n);
    if let Err(error) = rt.write_all(first(&text, size)) {
        say_failed(rt, b"standard output", error);
    }
}

// With two lists of as many places as lines. What is printed is the sign of the lists as they are left.
fn show(rt: &(impl Env + Print + Tell), asked: Asked, levels: &mut [u8], times: &mut [u8])
    requires { (length levels.old ≡ place_at asked.n) × (length times.old ≡ place_at asked.n) }
    ensures { lists levels.new times.new ≡ after_text asked.entry.file.now asked.entry.reports.now (cleared asked.entry.n) }
{
    clear(asked.n, levels, times);
    take_reports(rt, asked.file, asked.reports, levels, times);
    print_sign(rt, asked, levels, times);
}

fn lend(rt: &(impl Env + Print + Tell), asked: Asked) {
    let mut levels = [0u8; MOST_BYTES];
    let mut times = [0u8; MOST_BYTES];
    let size = PLACE * asked.n;
    show(rt, asked, &mut levels[..size], &mut times[..size]);
}

// A file that does not open has no sign.
fn show_file(
    rt: &(impl Env + Print + Tell),
    file: &[u8],
    reports: &[u8],
    moment: u32,
    limit: u32,
) -> Result<(), Told> {
    match open(file) {
        Ok(header) => {
            check_limit(rt, file, limit)?;
            let asked = Asked {
                file,
                n: header.n,
                reports,
                moment,
                limit,
            };
            lend(rt, asked);
            Ok(())
        }
        Err(why) => Err(tell_file(rt, why)),
    }
}

fn run(
    rt: &(impl Env + Files + Print + Tell),
    file: &mut [u8],
    reports: &mut [u8],
) -> Result<(), Told> {
    let moment = number_argument(rt, NOW, b"NOW", MOST_TIME)?;
    let limit = number_argument(rt, LIMIT, b"LIMIT", MOST_TIME)?;
    let file = read_argument(rt, FILE, file)?;
    let reports = text_argument(rt, REPORTS, reports, LONGEST_TEXT)?;
    show_file(rt, file, reports, moment, limit)
}

fn main(rt: HostRuntime) {
    if argument_count(&rt) != ARGUMENTS {
        say(&rt, b"usage: show_sign FILE REPORTS NOW LIMIT\n");
        return;
    }
    // A longer text fills the room that it is read into.
    prove!(TEXT_ROOM == LONGEST_TEXT + 1);
    let mut file = [0u8; LONGEST_FILE];
    let mut reports = [0u8; TEXT_ROOM];
    // What failed was told.
    let _ = run(&rt, &mut file, &mut reports);
}
