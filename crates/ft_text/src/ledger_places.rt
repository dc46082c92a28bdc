//! The place at which a ledger is read.

ghost use Rattle.std.specs.Prelude.{◌≡◌, ◌==◌, true, false, MatchOption, MatchResult};
ghost use Rattle.std.specs.List.{slice_split};
ghost use Rattle.ft_text.specs.LedgerReading.{line_number, is_end};
ghost use Rattle.ft_text.specs.LedgerAnswers.{IsAhead, IsLast};
ghost use Rattle.ft_text.specs.declared.record.LedgerFault.TheVariants.{Line};

use crate::ledger_words::cut_at;
use crate::record::LedgerFault;
use std::marker::Model;

/// A place in a ledger. Contracts see how many lines are before it, and the parts from there on.
#[derive(Drop)]
pub struct Lines<'a> {
    at: u64,
    left: &'a [u8],
}

impl<'a> Model for Lines<'a> {
    ghost use Rattle.std.specs.Prelude.{◌==◌, ◌+◌, ◌<◌, ◌^◌, length};
    ghost use Rattle.std.specs.List.{slice_split};
    ghost use Rattle.ft_text.specs.LedgerReading.{LedgerPlace};

    ghost Value = { LedgerPlace };

    ghost view = { λ p. record { at = p.at; left = slice_split (λ b. b == 10) p.left.now } };

    ghost invariant = { λ p. p.at + length p.left.now < 2 ^ 63 };
}

impl<'a> Lines<'a> {
    /// The front of a ledger.
    pub fn new(bytes: &'a [u8]) -> Lines<'a>
        ensures { result ≡ record { at = 0; left = slice_split (λ b. b == 10) bytes.now } }
    {
        Lines { at: 0, left: bytes }
    }

    /// The line here, and the place behind it; none where no LF follows.
    pub fn ahead(&self) -> Option<(&'a [u8], Lines<'a>)>
        ensures { MatchOption result (IsLast self.now)
            (λ next. IsAhead self.now next.0.now next.1) }
    {
        match cut_at(self.left, b'\n') {
            None => None,
            Some((line, left)) => {
                let at = self.at + 1;
                Some((line, Lines { at, left }))
            }
        }
    }

    /// That the line here can't be there.
    pub fn wrong(&self) -> LedgerFault
        ensures { result ≡ Line (line_number self.now.at) }
    {
        let line = (self.at + 1).min(4_294_967_295);
        LedgerFault::Line { line: line as u32 }
    }

    /// Nothing more may follow.
    pub fn over(&self) -> Result<(), LedgerFault>
        ensures { MatchResult result
            (λ _. is_end self.now.left ≡ true)
            (λ fault. (is_end self.now.left ≡ false)
            × (fault ≡ Line (line_number self.now.at))) }
    {
        if self.left.is_empty() {
            Ok(())
        } else {
            Err(self.wrong())
        }
    }
}
