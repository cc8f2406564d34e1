// Plays a script: each line is answered, and the answer written out, before the next line is read.
use crate::answer::Answer;
use crate::desk::Desk;
use crate::printer::Printer;
use crate::show;
use rules::report::{Cause, Report, ReportKind};
use std::io;
use std::io::{BufRead, Write};

// What the list of reports holds before the first call.
const BLANK: Report = Report {
    kind: ReportKind::Done,
    place: 0,
    rab: 0,
    cause: Cause::NoCause,
    size: 0,
};

// The next line without its newline; none at the end of the script.
// A `for` over `input.split` would make a list for each line: here all lines use the memory of one.
fn read_line<'a>(input: &mut impl BufRead, line: &'a mut Vec<u8>) -> io::Result<Option<&'a [u8]>> {
    line.clear();
    if input.read_until(b'\n', line)? == 0 {
        return Ok(None);
    }
    let text = line.as_slice();
    Ok(Some(text.strip_suffix(b"\n").unwrap_or(text)))
}

// The answer, and a line for each of its reports, which stand first in the list.
fn write_out(printer: &Printer<'_>, answer: &Answer, reports: &[Report]) -> io::Result<()> {
    if answer.is_silent() {
        return Ok(());
    }
    printer.line(*answer)?;
    for report in reports.iter().take(answer.counted()) {
        printer.more(*report)?;
    }
    Ok(())
}

// The picture that a show line asks for.
fn picture(printer: &Printer<'_>, answer: &Answer, desk: &Desk) -> io::Result<()> {
    match (answer, desk.cabinet()) {
        (Answer::Shown, Some(cabinet)) => show::show(*printer, cabinet),
        _ => Ok(()),
    }
}

// Plays each line with the list of reports that is lent. True if no line was an error.
fn play_lines(
    rt: &HostRuntime,
    mut input: impl BufRead + Drop,
    reports: &mut [Report],
) -> io::Result<bool> {
    let heap = rt.alloc();
    let mut desk = Desk::new();
    let mut line = Vec::new(heap);
    for number in 1u64.. {
        let Some(text) = read_line(&mut input, &mut line)? else {
            break;
        };
        let answer = desk.answer(heap, text, reports);
        let printer = Printer { rt, number };
        write_out(&printer, &answer, reports)?;
        picture(&printer, &answer, &desk)?;
        rt.stdout().flush()?;
    }
    Ok(!desk.failed())
}

// True if no line was an error.
pub fn play(rt: &HostRuntime, input: impl BufRead + Drop) -> io::Result<bool> {
    let mut reports = [BLANK; 288];
    play_lines(rt, input, &mut reports)
}
