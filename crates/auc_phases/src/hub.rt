//! The hub counts the First letters, and ends the phase.

ghost use Rattle.std.specs.Prelude.{◌≡◌, None};
ghost use Rattle.auc_phases.specs.Hub.{counting, ending, hearing};

use auc_letters::{Letter, Why};
use auc_model::End;
use std::marker::Model;

/// The number of objects that have got their first holder in the phase, by the letters that the hub has taken, and how
/// the phase has ended.
#[derive(Clone, Copy, Debug, PartialEq, Eq)]
pub struct Hub {
    count: u32,
    end: Option<End>,
}

impl Model for Hub {
    ghost use Rattle.auc_phases.specs.Hub.{Counting};

    ghost Value = { Counting };

    ghost view = { λ h. record { count = h.count; end = h.end } };

    ghost inverse = { λ v. record { count = v.count; end = v.end } };
}

impl Hub {
    /// Nothing was counted, and the phase hasn't ended.
    pub fn new() -> Hub
        ensures { result ≡ record { count = 0; end = None } }
    {
        Hub {
            count: 0,
            end: None,
        }
    }

    /// The number of First letters counted.
    pub fn count(&self) -> u32
        ensures { result ≡ self.now.count }
    {
        self.count
    }

    /// How the phase has ended, once it has.
    #[inline]
    pub fn end(&self) -> Option<End>
        ensures { result ≡ self.now.end }
    {
        self.end
    }

    /// Takes a letter, where there are `persons` persons. A First is counted, and the last of them ends the phase; a
    /// Stop ends it with its reason, and any other letter as stray. The first end stays.
    #[inline]
    pub fn hear(&mut self, letter: Letter, persons: u32)
        ensures { self.new ≡ hearing persons letter self.old }
    {
        match letter {
            Letter::First { .. } => self.count_first(persons),
            Letter::Stop { why } => self.end_with(End::Stopped { why }),
            Letter::Bid { .. }
            | Letter::Award { .. }
            | Letter::Refused { .. }
            | Letter::Outbid { .. }
            | Letter::Price { .. } => self.end_with(End::Stopped { why: Why::Stray }),
        }
    }

    /// Counts a First letter, if fewer were counted than there are persons; the last of them ends the phase.
    #[inline]
    fn count_first(&mut self, persons: u32)
        ensures { self.new ≡ counting persons self.old }
    {
        if self.count < persons {
            self.count += 1;
            if self.count == persons && self.end.is_none() {
                self.end = Some(End::All);
            }
        }
    }

    /// Ends the phase so, unless it has ended before.
    #[inline]
    pub fn end_with(&mut self, end: End)
        ensures { self.new ≡ ending self.old end }
    {
        if self.end.is_none() {
            self.end = Some(end);
        }
    }
}
