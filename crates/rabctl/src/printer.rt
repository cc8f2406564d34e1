// Writes the lines that answer one line of the script.
use std::{fmt, io};

#[derive(Clone, Copy)]
pub struct Printer<'a> {
    pub rt: &'a HostRuntime,
    // The number of the script's line.
    pub number: u64,
}

impl Printer<'_> {
    // A line that begins with the number.
    pub fn line(&self, text: impl fmt::Display + Drop) -> io::Result<()> {
        println!(self.rt; "{} {text}", self.number)
    }

    // A line without it, that belongs to the one before.
    pub fn more(&self, text: impl fmt::Display + Drop) -> io::Result<()> {
        println!(self.rt; "  {text}")
    }
}
