//! Why bytes are no ProTracker module.

ghost use Rattle.std.specs.Prelude.{◌≡◌};
ghost use Rattle.ft_modread.specs.declared.fault.ModFault.TheVariants.{NoMemory as no_memory};

/// What is wrong with the bytes: the first fault in file order. Places are offsets in the file.
#[derive(Clone, Copy, Debug, PartialEq, Eq)]
pub enum ModFault {
    /// This byte of the mark `M.K.` differs.
    NotMod {
        /// Its place, 1080 to 1083.
        at: u32,
    },
    /// A field of `need` bytes would begin here, and the file ends before its end.
    Short {
        /// Where the field would begin.
        at: u32,
        /// Its bytes.
        need: u32,
    },
    /// The number at this place is out of its range: a song length over 128, or an order over 127.
    Count {
        /// Where it stands.
        at: u32,
        /// The number.
        found: u8,
    },
    /// Out of memory. It comes only where nothing is wrong with the bytes.
    NoMemory,
}

impl From<ft_types::NoMemory> for ModFault {
    ghost from_gives = { λ _ fault. fault ≡ no_memory };

    fn from(_wanting: ft_types::NoMemory) -> ModFault {
        ModFault::NoMemory
    }
}
