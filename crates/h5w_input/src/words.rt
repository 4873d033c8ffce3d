ghost use Rattle.std.specs.Prelude.{◌≡◌, ◌∷◌, ◌≤◌, ◌+◌, [], None, length, MatchOption};
ghost use Rattle.h5w_input.specs.Lines.{words_of};
ghost use Rattle.h5w_input.specs.WordLists.{FirstSpells};

use crate::number::short_value;
use crate::places::first_place;
use std::marker::Model;

/// The words of a line that are left; they are separated by one space.
#[derive(Drop)]
pub struct Words<'a> {
    rest: Option<&'a [u8]>,
}

impl<'a> Model for Words<'a> {
    ghost use Rattle.std.specs.Prelude.{ℕ, List, option_map};
    ghost use Rattle.h5w_input.specs.WordLists.{words_left};

    ghost Value = { List (List ℕ) };

    ghost view = { λ w. words_left (option_map (λ rest. rest.now) w.rest) };
}

impl<'a> Words<'a> {
    /// The words of a line.
    pub fn of(line: &'a [u8]) -> Words<'a>
        ensures { result ≡ words_of line.now }
    {
        Words { rest: Some(line) }
    }

    /// At least as many as there are spaces between the words left.
    #[tactic(auto, using(crate::proofs::WordLemmas::most_left))]
    pub fn most_spaces(&self) -> usize
        ensures { length self.now ≤ result + 1 }
    {
        match self.rest {
            Some(rest) => rest.len(),
            None => 0,
        }
    }

    /// Takes the next word.
    #[inline(always)]
    #[tactic(auto, using(crate::proofs::WordLemmas::words_cut, crate::proofs::WordLemmas::words_end))]
    pub fn next(&mut self) -> Option<&'a [u8]>
        ensures words { MatchOption result (self.old ≡ []) (λ word. self.old ≡ word.now ∷ self.new) }
        ensures none { result ≡ None → self.new ≡ [] }
    {
        let line = self.rest?;
        let place = first_place(b' ', line);
        if place == line.len() {
            self.rest = None;
            return Some(line);
        }
        self.rest = Some(&line[place + 1..]);
        Some(&line[..place])
    }

    /// Takes the next word and gives its value, where it is one of at most 18 digits. None: no word is taken.
    #[inline(always)]
    pub fn next_short(&mut self) -> Option<i128>
        ensures { MatchOption result (self.new ≡ self.old) (λ v. FirstSpells v self.old self.new) }
    {
        let line = self.rest?;
        let (len, v) = short_value(line)?;
        if len == line.len() {
            self.rest = None;
            return Some(v);
        }
        self.rest = Some(&line[len + 1..]);
        Some(v)
    }
}
