// Words taken from the front of a line.
ghost use Rattle.std.specs.Prelude.{◌≡◌, [], ◌∷◌, MatchOption};
ghost use Rattle.commands.specs.Lines.{words, number_of, letter_of};
ghost use Rattle.commands.specs.Commands.{number_first, letter_first, pair_first, whole};
ghost use Rattle.commands.specs.Taking.{left, Takes};

use crate::commands::Command;
use crate::words::Words;
use model::rows::Pair;

// The number that a word writes.
fn number(word: &str) -> Option<u32>
    ensures { result ≡ number_of word.now }
{
    // A sign would be read as a part of the number.
    if word.starts_with('+') {
        return None;
    }
    word.parse::<u32>().ok()
}

// The one character that a word is.
fn letter(word: &str) -> Option<char>
    ensures { result ≡ letter_of word.now }
{
    let mut chars = word.chars();
    let letter = chars.next()?;
    chars.next().is_none().then_some(letter)
}

impl<'a> Words<'a> {
    // The next word.
    pub(crate) fn word(&mut self) -> Option<&'a str>
        ensures { MatchOption result (left self.old ≡ []) (λ w. left self.old ≡ w.now ∷ left self.new) }
    {
        let line = self.rest.trim_start_matches(' ');
        let (word, rest) = line.split_once(' ').unwrap_or((line, ""));
        self.rest = rest;
        (!word.is_empty()).then_some(word)
    }

    // The next word, which is to be a number.
    pub(crate) fn number(&mut self) -> Option<u32>
        ensures { Takes number_first (left self.old) result (left self.new) }
    {
        let word = self.word()?;
        number(word)
    }

    // The next word, which is to be one character.
    pub(crate) fn letter(&mut self) -> Option<char>
        ensures { Takes letter_first (left self.old) result (left self.new) }
    {
        let word = self.word()?;
        letter(word)
    }

    // The next two words, which are to be a profile and a bearer.
    pub(crate) fn pair(&mut self) -> Option<Pair>
        ensures { Takes pair_first (left self.old) result (left self.new) }
    {
        let profile = self.number()?;
        let bearer = self.number()?;
        Some(Pair { profile, bearer })
    }

    // A command, if no word is left.
    pub(crate) fn whole(&mut self, command: Command) -> Option<Command>
        ensures { result ≡ whole command (left self.old) }
    {
        self.word().is_none().then_some(command)
    }
}
