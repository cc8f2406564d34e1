// The words after the first one, read from the left.
ghost use Rattle.std.specs.Prelude.{◌≡◌, ◌≤◌, ℕ, List, [], Result, IfOk, OnOk, vec_items};
ghost use Rattle.script.specs.Adding.{Adds};
ghost use Rattle.script.specs.Numbers.{most_of};
ghost use Rattle.script.specs.Saying.{said, heard, Agrees};
ghost use Rattle.script.specs.Script.{with_rest, number_at, pool_at, gathered, ended};
ghost use Rattle.script.specs.declared.said.Fault.{Fault};

use crate::error::Error;
use crate::number;
use crate::said::{Argument, Fault, Line, Pool};
use crate::words::Words;
use std::alloc::Global;

impl Words<'_> {
    // The next word as a number.
    pub fn number(&mut self, argument: Argument) -> Result<u32, Fault>
        ensures value { with_rest self.new result ≡ number_at argument self.old }
        ensures bound { IfOk result (λ n. n ≤ most_of argument) }
    {
        let word = self.next().ok_or(Fault::Missing(argument))?;
        number::parse(argument, word)
    }

    // The pool of a cabinet.
    pub fn pool(&mut self) -> Result<Pool, Fault>
        ensures { with_rest self.new result ≡ pool_at self.old }
    {
        match self.next().ok_or(Fault::MissingPool)? {
            b"tree" => Ok(Pool::Tree),
            // The cast loses nothing: `number` has checked the range.
            b"rate" => Ok(Pool::Rate {
                capacity: self.number(Argument::Capacity)? as u16,
            }),
            _ => Err(Fault::UnknownPool),
        }
    }

    // Reads each word that is left: `add` adds to the list what a word gives.
    // A `for` would move the words in: no Iterator has `by_ref`, and `&mut Words` is no Iterator.
    pub fn gather<F: Fn(&[u8], &mut Vec<u8>) -> Result<(), Error>>(
        &mut self,
        heap: Global,
        add: F,
    ) -> Result<Vec<u8>, Error>
        ghost part: { List ℕ → Result (List ℕ) Fault }
        requires callable { F.IsAlwaysCallable add }
        requires adds { (w : _) (v : _) (r : _) (v' : _) → F.post add w v r v' → Adds (part w.now) v.now.items r v'.now.items }
        ensures value { Agrees vec_items result (gathered part self.old) }
        ensures rest { OnOk result (self.new ≡ []) }
    {
        let mut all = Vec::new(heap);
        while let Some(word) = self.next() {
            add(word, &mut all)?;
        }
        Ok(all)
    }

    // The line, if no word is left.
    pub fn end(mut self, line: Line) -> Result<Line, Fault>
        ensures { heard result ≡ ended (said line) self.entry }
    {
        match self.next() {
            Some(_) => Err(Fault::Extra),
            None => Ok(line),
        }
    }
}
