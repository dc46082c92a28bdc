//! Ledgers.

ghost use Rattle.std.specs.Prelude.{◌≡◌};

use anyhow::{Result, anyhow};
use ft_text::{LedgerFault, print_ledger, read_ledger};
use std::alloc::Global;
use std::io::Write;

/// Writes a ledger as it is in form 2, or its first line that can't be there.
pub fn put_ledger<W: Write>(alloc: Global, out: &mut W, ledger: &[u8]) -> Result<()> {
    match read_ledger(alloc, ledger) {
        Ok(r) => {
            let run = &r.run;
            let Ok(text) = print_ledger(alloc, run, &r.journal, &r.ticks, &r.hands, r.saved) else {
                return Err(anyhow!("out of memory"));
            };
            Ok(out.write_all(text.as_slice())?)
        }
        Err(LedgerFault::Line { line }) => Ok(writeln!(out, "line {line}")?),
        Err(LedgerFault::NoMemory) => Err(anyhow!("out of memory")),
    }
}
