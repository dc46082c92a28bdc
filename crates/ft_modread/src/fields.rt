//! The fields in file order, and what is wrong with them.

ghost use Rattle.std.specs.Prelude.{◌≡◌, ◌+◌, ◌*◌, ◌≤◌, ◌<◌, ◌^◌, length, nat_lt, OnOk, IfOk, IfSome};
ghost use Rattle.std.specs.List.{position};
ghost use Rattle.ft_modread.specs.declared.layout.TheConstants.{LENGTH_AT, ORDERS, MOST_ORDER, PATTERNS_AT, PATTERN};
ghost use Rattle.ft_modread.specs.Layout.{file_part, each};
ghost use Rattle.ft_modread.specs.Songs.{pattern_count_in};
ghost use Rattle.ft_modread.specs.ModFields.{unchecked, checked_by, length_check, orders_check, mark_check, field_fault, fault_among, head_fields, first_mod_fault};
ghost use Rattle.ft_modread.specs.Answers.{Meets};

use crate::fault::ModFault;
use crate::layout::{
    HEADER, HEADERS_AT, LENGTH_AT, MARK_AT, MOD_MARK, MOST_LENGTH, MOST_ORDER, ORDERS, ORDERS_AT,
    PATTERN, PATTERNS_AT, RESTART_AT, SAMPLES, TITLE,
};
use crate::order::pattern_count_in;

/// The bytes of a field; `Short` where the file ends before.
fn field(file: &[u8], at: u32, need: u32) -> Result<&[u8], ModFault>
    requires { at + need < 2 ^ 32 }
    ensures fault { Meets result (field_fault file.now (unchecked at need)) }
    ensures value { IfOk result (λ bytes. bytes.now ≡ file_part at need file.now) }
    ensures len { IfOk result (λ bytes. length bytes.now ≡ need) }
    ensures whole { OnOk result (at + need ≤ length file.now) }
{
    let start = at as usize;
    let end = (at + need) as usize;
    if file.len() < end {
        return Err(ModFault::Short { at, need });
    }
    Ok(&file[start..end])
}

/// Fields of one size, one after the other.
fn fields(file: &[u8], at: u32, need: u32, count: u32) -> Result<(), ModFault>
    requires near { at < 2 ^ 16 }
    requires small { need < 2 ^ 11 }
    requires few { count ≤ 256 }
    ensures fault { Meets result (fault_among file.now (each count (λ k. unchecked (at + need * k) need))) }
    ensures whole { OnOk result (1 ≤ count → at + need * count ≤ length file.now) }
{
    for k in 0..count {
        field(file, at + need * k, need)?;
    }
    Ok(())
}

/// The song length.
fn check_length(file: &[u8]) -> Result<(), ModFault>
    ensures { Meets result (field_fault file.now (checked_by LENGTH_AT 1 length_check)) }
{
    let found = field(file, LENGTH_AT, 1)?[0];
    if found > MOST_LENGTH {
        return Err(ModFault::Count {
            at: LENGTH_AT,
            found,
        });
    }
    Ok(())
}

/// The place of the first order that is too great.
fn first_over(orders: &[u8]) -> Option<usize>
    requires { length orders.now ≡ ORDERS }
    ensures value { result ≡ position (nat_lt MOST_ORDER) orders.now }
    ensures within { IfSome result (λ k. k < ORDERS) }
{
    orders.iter().position(|order| *order > MOST_ORDER)
}

/// The first order that is too great.
fn check_orders(orders: &[u8]) -> Result<(), ModFault>
    requires { length orders.now ≡ ORDERS }
    ensures { Meets result (orders_check orders.now) }
{
    match first_over(orders) {
        Some(k) => Err(ModFault::Count {
            at: ORDERS_AT + k as u32,
            found: orders[k],
        }),
        None => Ok(()),
    }
}

/// The first byte that isn't the mark's.
#[tactic(auto, unfolding(crate::specs::ModFields::mark_from))]
fn check_mark(mark: &[u8]) -> Result<(), ModFault>
    requires { length mark.now ≡ 4 }
    ensures { Meets result (mark_check mark.now) }
{
    for k in 0..4 {
        if mark[k] != MOD_MARK[k] {
            return Err(ModFault::NotMod {
                at: MARK_AT + k as u32,
            });
        }
    }
    Ok(())
}

/// What stands before the patterns.
#[tactic(auto, unfolding(crate::specs::ModFields::head_fields, crate::specs::ModFields::fault_among))]
fn check_head(file: &[u8]) -> Result<(), ModFault>
    ensures fault { Meets result (fault_among file.now head_fields) }
    ensures whole { OnOk result (PATTERNS_AT ≤ length file.now) }
{
    field(file, 0, TITLE)?;
    fields(file, HEADERS_AT, HEADER, SAMPLES)?;
    check_length(file)?;
    field(file, RESTART_AT, 1)?;
    check_orders(field(file, ORDERS_AT, ORDERS)?)?;
    check_mark(field(file, MARK_AT, 4)?)
}

/// Looks for the first fault of a file. Where there is none, answers the number of its patterns.
#[tactic(auto, unfolding(crate::specs::ModFields::first_mod_fault))]
pub fn check(file: &[u8]) -> Result<u32, ModFault>
    ensures fault { Meets result (first_mod_fault file.now) }
    ensures count { IfOk result (λ count. count ≡ pattern_count_in file.now) }
    ensures few { IfOk result (λ count. count ≤ 256) }
    ensures whole { IfOk result (λ count. PATTERNS_AT + PATTERN * count ≤ length file.now) }
{
    check_head(file)?;
    let count = pattern_count_in(file);
    fields(file, PATTERNS_AT, PATTERN, count)?;
    Ok(count)
}
