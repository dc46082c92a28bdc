//! How many segments a scan leaves free. No function here has code.
ghost use Rattle.std.specs.Prelude.{◌≡◌, ◌↔◌, ◌≤◌, ◌<◌, ◌+◌, ℕ, All, Contains};
ghost use Rattle.ft_shared.specs.declared.law.Hold.{Hold};
ghost use Rattle.ft_shared.specs.declared.law.Account.{Account};
ghost use Rattle.ft_shared.specs.Counts.{sum_below};
ghost use Rattle.ft_shared.specs.Account.{slot_at, IsWhole, IsBorne, Found};
ghost use Rattle.ft_shared.specs.Segments.{KeepsHeld};
ghost use Rattle.ft_shared.specs.Free.{finds, found_in_pool, free_in_pool, IsHeldSettled, IsExactScan, DoPinsHoldAll};

use ft_segments::held_by_a_pin_is_named;

/// A segment counts exactly where the scan found it, and each segment of the pool is free or
/// found. What counts each segment once where the scan found it, and no other, adds up to as many
/// as were found.
pub fn a_scan_counts_what_it_found()
    ensures found { (account : Account) (segment : ℕ)
        → 1 ≤ finds account segment ↔ Found account segment }
    ensures free { (account : Account)
        → free_in_pool account + found_in_pool account ≡ account.sizes.segments }
    ensures same { (account : Account) (held : ℕ → ℕ) → ((segment : ℕ) → held segment ≤ 1)
        → ((segment : ℕ) → 1 ≤ held segment ↔ Found account segment)
        → free_in_pool account + sum_below held account.sizes.segments
        ≡ account.sizes.segments }
{}

/// While all passes are settled, a whole scan finds just the segments of the current version and
/// what the settled passes hold. The clauses of `begin_scan`, `scan_slot` and `scan_pin` give what is
/// asked here, but for the numbers of the passes, which are below the readers, and for the pins,
/// which name roots of samples.
pub fn a_settled_scan_finds_what_is_held()
    ensures { (account : Account) → IsExactScan account → IsWhole account.sizes account
        → KeepsHeld account → All (IsBorne account) account.settled
        → ((hold : Hold) → Contains account.settled hold
        → hold.notes.number < account.sizes.readers)
        → (slot_at account account.slot).version ≡ account.version → DoPinsHoldAll account
        → (segment : ℕ) → Found account segment ↔ IsHeldSettled account segment }
{
    held_by_a_pin_is_named();
}
