//! The header of a file.

ghost use Rattle.std.specs.Prelude.{◌≡◌, ◌++◌, OnOk};
ghost use Rattle.ft_types.specs.Valid.{IsValid};
ghost use Rattle.ft_format.specs.Header.{titles_text, sizes_text, settings_text};
ghost use Rattle.ft_format.specs.Canon.{titles_of, sizes_of, settings_of, order_table, header_bytes};

use crate::bytes::{put, put_byte, put_u16, put_u32, put_zeros};
use ft_format::{HEADER_SIZE, IDENTIFICATION, MARK, ORDER_TABLE, Settings, Sizes, Titles, VERSION};
use ft_types::{Module, NoMemory};

/// The names of a song.
fn titles_of(song: &Module) -> Titles
    ensures { result ≡ titles_of song.now }
{
    Titles {
        name: song.name,
        mark: MARK,
        tracker: song.tracker,
    }
}

/// The header's size, the song length, the restart and the channels.
fn sizes_of(song: &Module) -> Sizes
    requires { IsValid song.now }
    ensures { result ≡ sizes_of song.now }
{
    Sizes {
        size: HEADER_SIZE,
        length: song.orders.len() as u16,
        restart: song.restart,
        channels: u16::from(song.channels),
    }
}

/// How many patterns and instruments there are, the flags, the tempo and the BPM.
fn settings_of(song: &Module) -> Settings
    requires { IsValid song.now }
    ensures { result ≡ settings_of song.now }
{
    Settings {
        patterns: song.patterns.len() as u16,
        instruments: song.instruments.len() as u16,
        flags: u16::from(song.linear),
        tempo: u16::from(song.tempo),
        bpm: u16::from(song.bpm),
    }
}

/// Bytes 17 to 57.
fn put_titles(bytes: &mut Vec<u8>, titles: &Titles) -> Result<(), NoMemory>
    ensures { OnOk result (bytes.new.items ≡ bytes.old.items ++ titles_text titles.now) }
{
    put(bytes, &titles.name)?;
    put_byte(bytes, titles.mark)?;
    put(bytes, &titles.tracker)
}

/// Bytes 58 to 69, the version before them.
fn put_sizes(bytes: &mut Vec<u8>, sizes: &Sizes) -> Result<(), NoMemory>
    ensures { OnOk result (bytes.new.items ≡ bytes.old.items ++ sizes_text sizes.now) }
{
    put_u16(bytes, VERSION)?;
    put_u32(bytes, sizes.size)?;
    put_u16(bytes, sizes.length)?;
    put_u16(bytes, sizes.restart)?;
    put_u16(bytes, sizes.channels)
}

/// Bytes 70 to 79.
fn put_settings(bytes: &mut Vec<u8>, settings: &Settings) -> Result<(), NoMemory>
    ensures { OnOk result (bytes.new.items ≡ bytes.old.items ++ settings_text settings.now) }
{
    put_u16(bytes, settings.patterns)?;
    put_u16(bytes, settings.instruments)?;
    put_u16(bytes, settings.flags)?;
    put_u16(bytes, settings.tempo)?;
    put_u16(bytes, settings.bpm)
}

/// Bytes 80 to 335: the orders of the song, and 0 behind them.
fn put_orders(bytes: &mut Vec<u8>, song: &Module) -> Result<(), NoMemory>
    requires { IsValid song.now }
    ensures { OnOk result (bytes.new.items ≡ bytes.old.items ++ order_table song.now.orders) }
{
    let orders = song.orders.as_slice();
    put(bytes, orders)?;
    put_zeros(bytes, ORDER_TABLE - orders.len())
}

/// The header, 336 bytes.
#[tactic(auto, unfolding(ft_format::specs::Header::header_text))]
pub fn put_header(bytes: &mut Vec<u8>, song: &Module) -> Result<(), NoMemory>
    requires { IsValid song.now }
    ensures { OnOk result (bytes.new.items ≡ bytes.old.items ++ header_bytes song.now) }
{
    put(bytes, &IDENTIFICATION)?;
    put_titles(bytes, &titles_of(song))?;
    put_sizes(bytes, &sizes_of(song))?;
    put_settings(bytes, &settings_of(song))?;
    put_orders(bytes, song)
}
