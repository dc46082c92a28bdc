//! The header, from byte 17 of a file to the end of the order table.

ghost use Rattle.std.specs.Prelude.{◌≡◌, ◌<◌, ◌≤◌, IfOk, IfErr};
ghost use Rattle.ft_format.specs.declared.layout.TheConstants.{BEFORE_ORDERS};
ghost use Rattle.ft_format.specs.declared.limits.TheConstants.{MOST_ORDERS, MOST_CHANNELS, MOST_INSTRUMENTS};
ghost use Rattle.ft_format.specs.Header.{length_of, restart_of, orders_of, song_from};
ghost use Rattle.ft_xmread.specs.Reader.{FileReads};
ghost use Rattle.ft_xmread.specs.Song.{IsThisSong};
ghost use Rattle.ft_xmread.specs.Header.{raw_of, titles_at, size_at, channels_at, sizes_at, settings_at, header_at, HasHeaderRanges};

use crate::fault::XmFault;
use crate::reader::Reader;
use ft_format::{
    BEFORE_ORDERS, LEAST_HEADER_SIZE, MOST_CHANNELS, MOST_INSTRUMENTS, MOST_ORDERS, MOST_PATTERNS,
    Settings, Sizes, Titles, VERSION,
};
use ft_types::{Instrument, Instruments, Module, Orders, Pattern, Patterns};
use std::alloc::Global;

/// The whole header, as the file spells it.
#[derive(Clone, Copy)]
pub struct Header<'a> {
    /// The names.
    pub titles: Titles,
    /// Its size, the song length, the restart and the channels.
    pub sizes: Sizes,
    /// How many patterns and instruments there are, the flags, the tempo and the BPM.
    pub settings: Settings,
    /// The order table, of any length.
    pub orders: &'a [u8],
}

#[tactic(auto, unfolding(crate::specs::Header::titles_at))]
fn read_titles(reader: &mut Reader) -> Result<Titles, XmFault>
    ensures { FileReads (λ x. x) result reader.new (titles_at reader.old) }
{
    let name = reader.array()?;
    let mark = reader.byte()?;
    let tracker = reader.array()?;
    Ok(Titles {
        name,
        mark,
        tracker,
    })
}

/// The header's size, which leaves room for an order.
fn read_size(reader: &mut Reader) -> Result<u32, XmFault>
    ensures value { FileReads (λ x. x) result reader.new (size_at reader.old) }
    ensures some { IfOk result (λ size. BEFORE_ORDERS < size) }
{
    let at = reader.place();
    let size = reader.u32()?;
    if size < LEAST_HEADER_SIZE {
        return Err(XmFault::Count { at, found: size });
    }
    Ok(size)
}

/// The number of channels, 1 to 32.
fn read_channels(reader: &mut Reader) -> Result<u16, XmFault>
    ensures value { FileReads (λ x. x) result reader.new (channels_at reader.old) }
    ensures few { IfOk result (λ channels. channels ≤ MOST_CHANNELS) }
{
    let at = reader.place();
    let channels = reader.u16()?;
    if channels == 0 || channels > MOST_CHANNELS {
        return Err(XmFault::Count {
            at,
            found: u32::from(channels),
        });
    }
    Ok(channels)
}

#[tactic(auto, unfolding(crate::specs::Header::sizes_at))]
fn read_sizes(reader: &mut Reader) -> Result<Sizes, XmFault>
    ensures value { FileReads (λ x. x) result reader.new (sizes_at reader.old) }
    ensures size { IfOk result (λ sizes. BEFORE_ORDERS < sizes.size) }
    ensures length { IfOk result (λ sizes. sizes.length ≤ MOST_ORDERS) }
    ensures channels { IfOk result (λ sizes. sizes.channels ≤ MOST_CHANNELS) }
{
    let version = reader.u16()?;
    if version != VERSION {
        return Err(XmFault::Version { found: version });
    }
    let size = read_size(reader)?;
    let length = reader.count(MOST_ORDERS)?;
    let restart = reader.u16()?;
    let channels = read_channels(reader)?;
    Ok(Sizes {
        size,
        length,
        restart,
        channels,
    })
}

#[tactic(auto, unfolding(crate::specs::Header::settings_at))]
fn read_settings(reader: &mut Reader) -> Result<Settings, XmFault>
    ensures value { FileReads (λ x. x) result reader.new (settings_at reader.old) }
    ensures instruments { IfOk result (λ settings. settings.instruments ≤ MOST_INSTRUMENTS) }
{
    let patterns = reader.count(MOST_PATTERNS)?;
    let instruments = reader.count(MOST_INSTRUMENTS)?;
    let flags = reader.u16()?;
    let tempo = reader.u16()?;
    let bpm = reader.u16()?;
    Ok(Settings {
        patterns,
        instruments,
        flags,
        tempo,
        bpm,
    })
}

/// The header behind the identification.
#[tactic(auto, unfolding(crate::specs::Header::header_at))]
pub fn read_header<'a>(reader: &mut Reader<'a>) -> Result<Header<'a>, XmFault>
    ensures value { FileReads raw_of result reader.new (header_at reader.old) }
    ensures ranges { IfOk result HasHeaderRanges }
{
    let titles = read_titles(reader)?;
    let sizes = read_sizes(reader)?;
    let settings = read_settings(reader)?;
    let orders = reader.field(sizes.size - BEFORE_ORDERS)?;
    Ok(Header {
        titles,
        sizes,
        settings,
        orders,
    })
}

impl<'a> Header<'a> {
    /// The song length in orders; 0 is read as 1.
    fn length(&self) -> u16
        ensures { result ≡ length_of self.now.sizes }
    {
        self.sizes.length.max(1)
    }

    /// The restart position; one past the song is 0.
    fn restart(&self) -> u16
        ensures { result ≡ restart_of self.now.sizes }
    {
        if self.sizes.restart < self.length() {
            self.sizes.restart
        } else {
            0
        }
    }

    /// The orders; those that the table doesn't hold are 0.
    fn orders(&self, alloc: Global) -> Result<Vec<u8>, XmFault>
        requires { HasHeaderRanges self.now }
        ensures value { IfOk result (λ orders. orders.items
            ≡ orders_of (length_of self.now.sizes) self.now.orders.now) }
        ensures wanting { IfErr result (λ fault. fault ≡ XmFault.NoMemory) }
    {
        let count = usize::from(self.length());
        let stored = count.min(self.orders.len());
        let mut orders = Vec::with_capacity(alloc, count)?;
        orders.extend_from_slice(&self.orders[..stored])?;
        orders.resize(count, 0)?;
        Ok(orders)
    }

    /// The module of this header, its numbers brought into range.
    #[tactic(auto, unfolding(ft_format::specs::Header::song_from))]
    pub fn song(
        &self,
        alloc: Global,
        patterns: Vec<Pattern>,
        instruments: Vec<Instrument>,
    ) -> Result<Module, XmFault>
        requires { HasHeaderRanges self.now }
        ensures { IsThisSong result
            (song_from (raw_of self.now) patterns.items instruments.items) }
    {
        let orders = self.orders(alloc)?;
        Ok(Module {
            name: self.titles.name,
            tracker: self.titles.tracker,
            restart: self.restart(),
            channels: self.sizes.channels as u8,
            linear: self.settings.flags % 2 == 1,
            tempo: self.settings.tempo.clamp(1, 31) as u8,
            bpm: self.settings.bpm.clamp(32, 255) as u8,
            orders: Orders::from_vec(orders),
            patterns: Patterns::from_vec(patterns),
            instruments: Instruments::from_vec(instruments),
        })
    }
}
