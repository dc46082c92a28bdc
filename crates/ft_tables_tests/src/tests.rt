//! Rows that were worked by hand.

use ft_tables::{amiga_period, frequency16, linear_period, wave};
use std::test::Fail;

/// A note, its finetune, and its linear and Amiga periods.
static PERIODS: [(u8, i8, u16, u16); 5] = [
    (48, 0, 4608, 1712),
    (49, 0, 4544, 1616),
    (48, 64, 4576, 1664),
    (48, -1, 4609, 1712),
    (48, -128, 4672, 1812),
];

/// The kind of periods, a period, and its frequency in 1/65,536 Hz.
static FREQUENCIES: [(bool, u16, u64); 3] = [
    (true, 4608, 548_077_568),
    (false, 1712, 548_077_568),
    (true, 4544, 580_668_179),
];

/// A kind, a position, and the wave there.
static WAVES: [(u8, u8, i16); 6] = [
    (0, 16, 255),
    (0, 48, -255),
    (1, 63, -249),
    (2, 31, 255),
    (2, 32, -255),
    (3, 63, 249),
];

#[test]
fn notes_have_their_periods(rt: HostRuntime) -> Result<(), Fail> {
    for (note, finetune, linear, amiga) in PERIODS.iter() {
        let note = *note % 119;
        assert_eq!(rt; linear_period(note, *finetune), *linear);
        assert_eq!(rt; amiga_period(note, *finetune), *amiga);
    }
    Ok(())
}

#[test]
fn periods_have_their_frequencies(rt: HostRuntime) -> Result<(), Fail> {
    for (linear, period, frequency) in FREQUENCIES.iter() {
        let period = (*period).clamp(1, 31999);
        assert_eq!(rt; frequency16(*linear, period), *frequency);
    }
    Ok(())
}

#[test]
fn waves_have_their_heights(rt: HostRuntime) -> Result<(), Fail> {
    for (kind, position, height) in WAVES.iter() {
        assert_eq!(rt; wave(*kind % 4, *position % 64), *height);
    }
    Ok(())
}
