//! Modules with a field that is missing or fails its check, and the first fault in file order.

use crate::given::one_note_mod_with;
use ft_modread::ModFault::{Count, NotMod, Short};
use ft_modread::{ModFault, read_mod};
use ft_songs::Splice;
use std::alloc::{AllocError, Global};
use std::test::Fail;

/// How many bytes of the module of one note stay.
static CUTS: [(usize, ModFault); 23] = [
    (0, Short { at: 0, need: 20 }),
    (19, Short { at: 0, need: 20 }),
    (20, Short { at: 20, need: 30 }),
    (49, Short { at: 20, need: 30 }),
    (50, Short { at: 50, need: 30 }),
    (919, Short { at: 890, need: 30 }),
    (920, Short { at: 920, need: 30 }),
    (949, Short { at: 920, need: 30 }),
    (950, Short { at: 950, need: 1 }),
    (951, Short { at: 951, need: 1 }),
    (952, Short { at: 952, need: 128 }),
    (1000, Short { at: 952, need: 128 }),
    (1079, Short { at: 952, need: 128 }),
    (1080, Short { at: 1080, need: 4 }),
    (1083, Short { at: 1080, need: 4 }),
    (
        1084,
        Short {
            at: 1084,
            need: 1024,
        },
    ),
    (
        1085,
        Short {
            at: 1084,
            need: 1024,
        },
    ),
    (
        2000,
        Short {
            at: 1084,
            need: 1024,
        },
    ),
    (
        2107,
        Short {
            at: 1084,
            need: 1024,
        },
    ),
    // nothing is wrong with these, whose data is missing, and the whole
    (2108, ModFault::NoMemory),
    (2110, ModFault::NoMemory),
    (2111, ModFault::NoMemory),
    (2112, ModFault::NoMemory),
];

/// The fault of the module of one note with other bytes from a place on, cut to a length.
static REFUSALS: [(usize, &[u8], usize, ModFault); 24] = [
    (1080, b"m", 2112, NotMod { at: 1080 }),
    (1081, b"!", 2112, NotMod { at: 1081 }),
    (1082, b"k", 2112, NotMod { at: 1082 }),
    (1083, b"\0", 2112, NotMod { at: 1083 }),
    (1080, b"FLT4", 2112, NotMod { at: 1080 }),
    (1080, b"M!K!", 2112, NotMod { at: 1081 }),
    (1080, b"M.k!", 2112, NotMod { at: 1082 }),
    (
        950,
        &[129],
        2112,
        Count {
            at: 950,
            found: 129,
        },
    ),
    (
        950,
        &[255],
        2112,
        Count {
            at: 950,
            found: 255,
        },
    ),
    (
        950,
        &[200],
        951,
        Count {
            at: 950,
            found: 200,
        },
    ),
    (
        952,
        &[200],
        2112,
        Count {
            at: 952,
            found: 200,
        },
    ),
    (
        952,
        &[128],
        2112,
        Count {
            at: 952,
            found: 128,
        },
    ),
    (
        1079,
        &[255],
        2112,
        Count {
            at: 1079,
            found: 255,
        },
    ),
    (
        1000,
        &[127, 128, 129],
        2112,
        Count {
            at: 1001,
            found: 128,
        },
    ),
    // the first in file order: length, orders, mark, patterns
    (
        1079,
        &[128, b'm'],
        2112,
        Count {
            at: 1079,
            found: 128,
        },
    ),
    (
        950,
        &[129, 0, 255],
        2112,
        Count {
            at: 950,
            found: 129,
        },
    ),
    (1079, &[1, b'm'], 2112, NotMod { at: 1080 }),
    (
        1079,
        &[128],
        1083,
        Count {
            at: 1079,
            found: 128,
        },
    ),
    (1079, &[1], 1083, Short { at: 1080, need: 4 }),
    // as many patterns as the greatest of all orders asks for
    (
        952,
        &[1],
        2112,
        Short {
            at: 2108,
            need: 1024,
        },
    ),
    (
        1079,
        &[1],
        2112,
        Short {
            at: 2108,
            need: 1024,
        },
    ),
    (
        1079,
        &[127],
        2107,
        Short {
            at: 1084,
            need: 1024,
        },
    ),
    (
        1079,
        &[127],
        2108,
        Short {
            at: 2108,
            need: 1024,
        },
    ),
    (950, &[128], 2112, ModFault::NoMemory),
];

/// The fault of these bytes, or `NoMemory`, which no bytes have, where there is none.
fn fault_of(alloc: Global, module: &[u8]) -> ModFault {
    match read_mod(alloc, module) {
        Ok(_) => ModFault::NoMemory,
        Err(fault) => fault,
    }
}

/// The first length to which the module is cut that has another fault.
fn first_wrong_cut(alloc: Global) -> Result<Option<usize>, AllocError> {
    for (length, fault) in CUTS.iter() {
        let module = one_note_mod_with(alloc, &[])?;
        if fault_of(alloc, module.get(..*length).unwrap_or(&[])) != *fault {
            return Ok(Some(*length));
        }
    }
    Ok(None)
}

#[test]
fn modules_that_end_too_soon_name_the_field_and_its_size(rt: HostRuntime) -> Result<(), Fail> {
    assert!(rt; first_wrong_cut(rt.alloc())?.is_none());
    Ok(())
}

/// The first row with another fault.
fn first_wrong(alloc: Global) -> Result<Option<usize>, AllocError> {
    for (number, (from, bytes, length, fault)) in REFUSALS.iter().enumerate() {
        let change = Splice {
            from: *from,
            to: from.saturating_add(bytes.len()),
            bytes,
        };
        let module = one_note_mod_with(alloc, &[change])?;
        if fault_of(alloc, module.get(..*length).unwrap_or(&[])) != *fault {
            return Ok(Some(number));
        }
    }
    Ok(None)
}

#[test]
fn the_first_fault_in_file_order_is_the_answer(rt: HostRuntime) -> Result<(), Fail> {
    assert!(rt; first_wrong(rt.alloc())?.is_none());
    Ok(())
}
