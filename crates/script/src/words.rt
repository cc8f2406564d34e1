// Words: what stands between spaces.
ghost use Rattle.std.specs.Iterator.{YieldsFirstRef, item_count};
ghost use Rattle.std.specs.Prelude.{◌≡◌, ◌==◌, not, length, take_while};
ghost use Rattle.script.specs.Words.{words};

use std::marker::Model;

// The words of a text that are not read yet.
// Not a chain of `split` and `filter`: each call takes a word and leaves the rest for the next one, and such a chain has a type that no field can name.
#[derive(Drop)]
pub struct Words<'a> {
    text: &'a [u8],
}

impl<'a> Model for Words<'a> {
    ghost use Rattle.std.specs.Prelude.{ℕ, List};
    ghost use Rattle.script.specs.Words.{words};

    ghost Value = { List (List ℕ) };

    ghost view = { λ w. words w.text.now };
}

impl<'a> Words<'a> {
    pub fn new(text: &'a [u8]) -> Words<'a>
        ensures { result ≡ words text.now }
    {
        Words { text }
    }
}

// Two chains of one line: one with a closure for the test would be no plainer.
// How many spaces a text begins with.
fn spaces(text: &[u8]) -> usize
    ensures { result ≡ length (take_while (λ b. b == 32) text.now) }
{
    text.iter().take_while(|b| **b == b' ').count()
}

// How many bytes a text has before its first space.
fn word_length(text: &[u8]) -> usize
    ensures { result ≡ length (take_while (λ b. not (b == 32)) text.now) }
{
    text.iter().take_while(|b| **b != b' ').count()
}

impl<'a> Iterator for Words<'a> {
    type Item = &'a [u8];

    ghost next_gives = { YieldsFirstRef (λ left. left) };

    ghost remaining = { item_count (λ left. left) };

    fn next(&mut self) -> Option<&'a [u8]> {
        let (_, trimmed) = self.text.split_at(spaces(self.text));
        if trimmed.is_empty() {
            // The spaces at the end are passed once, also where this is asked again.
            self.text = trimmed;
            return None;
        }
        let (word, rest) = trimmed.split_at(word_length(trimmed));
        self.text = rest;
        Some(word)
    }
}
