// The calls from C: each takes numbers and slices, calls the proved call of the same purpose, and gives its answer in the paper's numbers. include/dronesickle.h is their description for C. The parameters stay flat, as C passes them.
#![tactic(auto)]

mod answers; // answers.rt: the answers as C has them

ghost use Rattle.std.specs.Prelude.{◌≡◌};
ghost use Rattle.directory.specs.Building.{lent};
ghost use Rattle.directory.specs.Calls.{length_of, build_numbers_of, buffer_after_of, open_numbers_of, lookup_numbers_of, show_part_of};
ghost use Rattle.sign.specs.Rules.{a_report, a_question};
ghost use Rattle.sign.specs.Keeping.{lists};
ghost use Rattle.sign.specs.Answers.{reported_numbers, answer_numbers};
ghost use Rattle.sign.specs.Calls.{report_of, after_report, ask_of};
ghost use Rattle.dronesickle.specs.Numbers.{answer, counted, opened, found, part, reported, asked};

pub use answers::{DsAnswer, DsAsked, DsCounted, DsFound, DsOpened, DsPart, DsReported};

// The length of the file for n, r and v; 0 where the sizes do not allow them.
#[unsafe(no_mangle)]
pub extern "C" fn ds_length(n: usize, r: usize, v: usize) -> usize
    ensures { result ≡ length_of n r v }
{
    reader::length(n, r, v)
}

// Builds the directory of a code list at the start of the buffer, or refuses and changes no byte.
#[unsafe(no_mangle)]
pub extern "C" fn ds_build_counted(
    run: &[u8],
    ends: &[u16],
    r: usize,
    v: usize,
    weights: &[u16],
    buffer: &mut [u8],
) -> DsCounted
    ensures given { result ≡ counted (build_numbers_of (lent run.now ends.now r v weights.now buffer.old)) }
    ensures bytes { buffer.new ≡ buffer_after_of (lent run.now ends.now r v weights.now buffer.old) }
{
    builder::build(run, ends, r, v, weights, buffer).into()
}

// The same without the count.
#[unsafe(no_mangle)]
pub extern "C" fn ds_build(
    run: &[u8],
    ends: &[u16],
    r: usize,
    v: usize,
    weights: &[u16],
    buffer: &mut [u8],
) -> DsAnswer
    ensures given { result ≡ answer (build_numbers_of (lent run.now ends.now r v weights.now buffer.old)) }
    ensures bytes { buffer.new ≡ buffer_after_of (lent run.now ends.now r v weights.now buffer.old) }
{
    let counted = ds_build_counted(run, ends, r, v, weights, buffer);
    DsAnswer {
        number: counted.number,
        place: counted.place,
    }
}

// Looks at a whole file: its n, r and v if it is right.
#[unsafe(no_mangle)]
pub extern "C" fn ds_open(file: &[u8]) -> DsOpened
    ensures { result ≡ opened (open_numbers_of file.now) }
{
    reader::open(file).into()
}

// Looks a code up in any bytes.
#[unsafe(no_mangle)]
pub extern "C" fn ds_lookup(file: &[u8], code: &[u8]) -> DsFound
    ensures { result ≡ found (lookup_numbers_of file.now code.now) }
{
    reader::lookup(file, code).into()
}

// Where the code of a line stands in the file; no bytes where there is none.
#[unsafe(no_mangle)]
pub extern "C" fn ds_show(file: &[u8], line: usize) -> DsPart
    ensures { result ≡ part (show_part_of file.now line) }
{
    reader::part(file, line).into()
}

// Reports the level of a code at a time, or refuses and changes no byte of the lists.
#[unsafe(no_mangle)]
pub extern "C" fn ds_report(
    file: &[u8],
    code: &[u8],
    level: i32,
    time: u32,
    levels: &mut [u8],
    times: &mut [u8],
) -> DsReported
    ensures given { result ≡ reported (reported_numbers (report_of file.now (a_report code.now level time) (lists levels.old times.old))) }
    ensures stored { lists levels.new times.new ≡ after_report file.now (a_report code.now level time) (lists levels.old times.old) }
{
    sign::report(file, code, level, time, levels, times).into()
}

// What the sign knows of a code at a moment.
#[unsafe(no_mangle)]
pub extern "C" fn ds_ask(
    file: &[u8],
    code: &[u8],
    moment: u32,
    limit: u32,
    levels: &[u8],
    times: &[u8],
) -> DsAsked
    ensures { result ≡ asked (answer_numbers (ask_of file.now (a_question code.now moment limit) (lists levels.now times.now))) }
{
    sign::ask(file, code, moment, limit, levels, times).into()
}
