// Frames made for a test, and what a controller tells of them.
use admission::RadioPool;
use controller::Controller;
use rules::refusal::Refusal;
use rules::report::{Cause, Report, ReportKind};
use std::iter;

// A list of 288 records that no call has written.
pub fn blank() -> [Report; 288] {
    [Report {
        kind: ReportKind::RelocationCancel,
        place: 99,
        rab: 99,
        cause: Cause::TableFull,
        size: 99,
    }; 288]
}

// One set-up or modify item with RAB parameters, priority, transport and user plane (flags 1B).
pub fn asking(place: u8, rab: u8, size: u8, level: u8, rights: u8) -> [u8; 14] {
    [
        1, place, 0, 1, 0, 8, 0, 6, 1, rab, 0x1b, size, level, rights,
    ]
}

// One release item.
pub fn releasing(place: u8, rab: u8) -> [u8; 11] {
    [1, place, 0, 1, 0, 8, 0, 3, 2, rab, 0]
}

// An IU RELEASE COMMAND.
pub fn closing(place: u8) -> [u8; 4] {
    [2, place, 0, 0]
}

// The five numbers of a report: kind, place, RAB ID, cause, size.
fn numbers(r: &Report) -> [u8; 5] {
    [r.kind.number(), r.place, r.rab, r.cause.number(), r.size]
}

// Whether the list begins with just these reports and is otherwise as it was.
pub fn lists(list: &[Report; 288], count: usize, wanted: &[[u8; 5]]) -> bool {
    let untouched = [9, 99, 99, 12, 99];
    count == wanted.len()
        && list
            .iter()
            .zip(wanted.iter().chain(iter::repeat(&untouched)))
            .all(|(report, numbers_wanted)| numbers(report) == *numbers_wanted)
}

// Whether a frame is answered with just these reports.
pub fn tells<P: RadioPool>(c: &mut Controller<P>, frame: &[u8], wanted: &[[u8; 5]]) -> bool {
    let mut list = blank();
    c.frame(frame, &mut list)
        .is_ok_and(|count| lists(&list, count, wanted))
}

// Flat, so that one table of a test has what is obeyed and what is refused.
// Number and place of a refusal; 0 and the count of reports where the call is obeyed.
pub fn counted(answer: Result<usize, Refusal>) -> (u8, usize) {
    match answer {
        Ok(count) => (0, count),
        Err(refusal) => (refusal.number(), usize::from(refusal.place)),
    }
}

// The same of a frame.
pub fn refused<P: RadioPool>(c: &mut Controller<P>, frame: &[u8]) -> (u8, usize) {
    counted(c.frame(frame, &mut blank()))
}
