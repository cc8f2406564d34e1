// A picture of the cabinet for a person, in lines that begin with the number of the script's line.
use crate::cabinet::{Cabinet, Pool};
use crate::printer::Printer;
use admission::GrantSet;
use rules::bearer::{Bearer, Request};
use rules::connection::Connection;
use std::{fmt, io};

// The largest size that there is room for, 0 if there is none. The picture says "up to" it, so 0 and not None.
fn largest(cabinet: &Cabinet) -> u8 {
    let given = GrantSet::empty();
    (1..=64u8)
        .rev()
        .find(|size| cabinet.room(&given, *size))
        .unwrap_or(0)
}

// A line of 64 leaves: a point where a leaf is free, else the last digit of the grant that stands on it.
#[derive(Clone, Copy)]
struct Leaves<'a> {
    pool: &'a Pool,
    line: u8,
}

impl fmt::Display for Leaves<'_> {
    fn fmt<W: fmt::Write>(&self, f: &mut fmt::Formatter<W>) -> fmt::Result {
        for leaf in (0..=255u8).skip(usize::from(self.line) * 64).take(64) {
            match self.pool.owner(leaf) {
                None => f.write_str(".")?,
                Some(grant) => write!(f, "{}", grant % 10)?,
            }
        }
        Ok(())
    }
}

#[derive(Clone, Copy)]
struct Picture<'a> {
    printer: Printer<'a>,
    cabinet: &'a Cabinet,
}

impl Picture<'_> {
    fn line(&self, text: impl fmt::Display + Drop) -> io::Result<()> {
        self.printer.line(format_args!("| {text}"))
    }

    fn connections(&self) -> io::Result<()> {
        self.line("connections:")?;
        for place in 0..16u8 {
            let Connection { state, ue, domain } = self.cabinet.connection(place);
            if !state.is_closed() {
                self.line(format_args!("  place {place}: {state}, UE {ue}, {domain}"))?;
            }
        }
        Ok(())
    }

    fn bearer(&self, bearer: &Bearer) -> io::Result<()> {
        let Bearer {
            place,
            rab,
            grant,
            size,
            priority,
        } = *bearer;
        self.line(format_args!(
            "  RAB {rab} at place {place}: grant {grant}, size {size}, {priority}"
        ))
    }

    fn bearers(&self) -> io::Result<()> {
        self.line("RABs that are set up:")?;
        for bearer in self.cabinet.bearers() {
            self.bearer(bearer)?;
        }
        Ok(())
    }

    fn request(&self, request: &Request) -> io::Result<()> {
        let Request {
            place,
            rab,
            size,
            priority,
        } = *request;
        self.line(format_args!("  RAB {rab} at place {place}: size {size}, {priority}"))
    }

    // By level, and on a level by arrival. A search of the queue for each level: a copy sorted by level would want memory.
    fn queue(&self) -> io::Result<()> {
        self.line("requests that wait, the next to be served first:")?;
        for level in 1..=15u8 {
            let queue = self.cabinet.queue();
            for request in queue.iter().filter(|r| r.priority.level == level) {
                self.request(request)?;
            }
        }
        Ok(())
    }

    fn grants(&self) -> io::Result<()> {
        let largest = largest(self.cabinet);
        self.line(format_args!("pool, with room for sizes up to {largest}:"))?;
        for grant in 0..64u8 {
            let size = self.cabinet.held(grant);
            if size != 0 {
                self.line(format_args!("  grant {grant}: size {size}"))?;
            }
        }
        Ok(())
    }

    // The 256 leaves of the code tree, in four lines. A rate pool has none.
    fn leaves(&self) -> io::Result<()> {
        let pool = self.cabinet.pool();
        if let Pool::Tree(_) = pool {
            for line in 0..4u8 {
                self.line(format_args!("  {}", Leaves { pool, line }))?;
            }
        }
        Ok(())
    }
}

pub fn show(printer: Printer<'_>, cabinet: &Cabinet) -> io::Result<()> {
    let picture = Picture { printer, cabinet };
    picture.connections()?;
    picture.bearers()?;
    picture.queue()?;
    picture.grants()?;
    picture.leaves()
}
