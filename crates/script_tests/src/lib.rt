#![tactic(auto)]

// The library `script` on examples: a table of lines with what each says.
#[cfg(test)]
mod told;

#[cfg(test)]
mod tests {
    use crate::told;
    use std::alloc::Global;
    use std::test::Fail;

    fn check_line(heap: Global, line: &[u8], expected: &str) -> Result<(), Fail> {
        let told = told::told(heap, line)?;
        if told.as_str() != expected {
            return Err(Fail::new(expected));
        }
        Ok(())
    }

    fn check_all(heap: Global, table: &[(&str, &str)]) -> Result<(), Fail> {
        for (line, expected) in table {
            check_line(heap, line.as_bytes(), expected)?;
        }
        Ok(())
    }

    #[test]
    fn lines_that_say_something(rt: HostRuntime) -> Result<(), Fail> {
        check_all(
            rt.alloc(),
            &[
                ("", "skipped"),
                ("    ", "skipped"),
                ("#", "skipped"),
                ("# show", "skipped"),
                ("cabinet 65535 rate 65535", "cabinet 65535 rate 65535"),
                ("cabinet 0 tree", "cabinet 0 tree"),
                ("open 255 4294967295 0", "open 255 4294967295 0"),
                ("  open  007   0000000000000000000009  2 ", "open 7 9 2"),
                ("frame", "frame []"),
                ("frame 00fFAa 7B", "frame [0, 255, 170, 123]"),
                ("expiry 1 2", "expiry 1 2"),
                ("start 3", "start 3"),
                ("execute 4", "execute 4"),
                ("withdraw 255", "withdraw 255"),
                ("rab 5 6", "rab 5 6"),
                ("grant 7", "grant 7"),
                ("room 8", "room 8 []"),
                ("room 8 0 255 9", "room 8 [0, 255, 9]"),
                ("show", "show"),
            ],
        )
    }

    #[test]
    fn faults(rt: HostRuntime) -> Result<(), Fail> {
        check_all(
            rt.alloc(),
            &[
                ("Show", "unknown word"),
                (" # show", "unknown word"),
                ("show\t", "unknown word"),
                ("show me", "extra word"),
                ("cabinet", "missing number"),
                ("cabinet 65536 tree", "number out of range"),
                ("cabinet 1", "missing pool"),
                ("cabinet 1 bush", "unknown pool"),
                ("cabinet 1 rate", "missing capacity"),
                ("cabinet 1 rate 65536", "capacity out of range"),
                ("cabinet 1 tree 5", "extra word"),
                ("open", "missing place"),
                ("open 256 x", "place out of range"),
                ("open 1 -2 300", "ue not decimal"),
                ("open 1 4294967296 3", "ue out of range"),
                ("open 1 2", "missing domain"),
                (
                    "expiry 1 99999999999999999999999999999999",
                    "timer out of range",
                ),
                ("execute 1 2 3", "extra word"),
                ("rab 1 2x", "rab not decimal"),
                ("grant 256", "grant out of range"),
                ("room", "missing size"),
                ("room 1 2 300 x", "grant out of range"),
                ("frame 0", "odd hex"),
                ("frame 00 0g", "not hex"),
                ("frame 00g", "not hex"),
                ("frame 0 0g", "odd hex"),
            ],
        )
    }

    #[test]
    fn bytes_that_are_no_text(rt: HostRuntime) -> Result<(), Fail> {
        check_line(rt.alloc(), b"\xff\x80", "unknown word")?;
        check_line(rt.alloc(), b"start \xb2", "ue not decimal")?;
        check_line(rt.alloc(), b"frame \xc1\xe1", "not hex")
    }
}
