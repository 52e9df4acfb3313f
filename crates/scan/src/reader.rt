// The words of a line, one after the other.
ghost use Rattle.std.specs.Prelude.{◌≡◌, [], ◌∷◌, MatchOption};
ghost use Rattle.scan.specs.Words.{words_of, after_of, skipped};

use crate::bytes::{Kind, run};

/// What is left of a line, from which words are taken.
#[derive(Drop)]
pub struct Words<'a> {
    rest: &'a [u8],
}

impl<'a> Words<'a> {
    /// A reader at the start of a line.
    pub fn new(line: &'a [u8]) -> Words<'a>
        ensures { result.rest.now ≡ line.now }
    {
        Words { rest: line }
    }

    /// Takes the next word, or says that there is none.
    // Stays: in an Iterator, whose `skip` takes it by value, `words.skip()` would be that one and not the one below.
    pub fn next(&mut self) -> Option<&'a [u8]>
        ensures cases { MatchOption result ((words_of self.old.rest.now ≡ []) × (words_of self.new.rest.now ≡ [])) (λ w. words_of self.old.rest.now ≡ w.now ∷ words_of self.new.rest.now) }
        ensures after { self.new.rest.now ≡ after_of self.old.rest.now }
    {
        self.skip();
        let (word, rest) = self.rest.split_at(run(self.rest, Kind::Solid));
        self.rest = rest;
        (!word.is_empty()).then_some(word)
    }

    /// Passes over the blanks before the next word.
    pub fn skip(&mut self)
        ensures { self.new.rest.now ≡ skipped self.old.rest.now }
    {
        self.rest = &self.rest[run(self.rest, Kind::Blank)..];
    }

    /// What is left of the line as it stands.
    pub fn rest(&self) -> &'a [u8]
        ensures { result.now ≡ self.now.rest.now }
    {
        self.rest
    }
}
