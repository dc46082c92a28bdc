//! The bytes of WAV files.

use ft_out::{put_frames, put_frames_through, wav_head};
use ft_outer::{MemSink, SureSink, WriteFault};
use std::test::Fail;

/// The heads of a second of sound, at rates of that many frames.
static HEADS: [(u32, &[u8; 44]); 2] = [
    (
        8_000,
        b"RIFF\x24\x7d\x00\x00WAVEfmt \x10\x00\x00\x00\x01\x00\x02\x00\
        \x40\x1f\x00\x00\x00\x7d\x00\x00\x04\x00\x10\x00data\x00\x7d\x00\x00",
    ),
    (
        44_100,
        b"RIFF\x34\xb1\x02\x00WAVEfmt \x10\x00\x00\x00\x01\x00\x02\x00\
        \x44\xac\x00\x00\x10\xb1\x02\x00\x04\x00\x10\x00data\x10\xb1\x02\x00",
    ),
];

/// Whether this is the head of a second at this rate.
fn is_head(rate: u32, head: &[u8; 44]) -> bool {
    rate <= 48_000 && wav_head(rate, rate) == *head
}

#[test]
fn the_head_of_a_second_of_sound(rt: HostRuntime) {
    for (rate, head) in HEADS.iter() {
        assert!(rt; is_head(*rate, head), "{rate}");
    }
}

#[test]
fn frames_are_bytes_however_they_are_taken(rt: HostRuntime) -> Result<(), Fail> {
    let mut sink = SureSink::new(rt.alloc(), 100, 3)?;
    let whole = put_frames(&mut sink, &[-1, 256, 32_767, -32_768]).is_ok()
        && put_frames_through(&mut sink, &mut [0; 5], &[1, -1, 2]).is_ok();
    let bytes = b"\xff\xff\x00\x01\xff\x7f\x00\x80\x01\x00\xff\xff\x02\x00";
    assert!(rt; whole && sink.bytes() == bytes.as_slice());
    Ok(())
}

#[test]
fn a_fault_keeps_a_front(rt: HostRuntime) -> Result<(), Fail> {
    let mut sink = MemSink::new(rt.alloc(), 100, 5, [2].to_vec(rt.alloc())?)?;
    assert!(rt; put_frames(&mut sink, &[1, 2, 3, 4]) == Err(WriteFault));
    assert!(rt; sink.bytes() == b"\x01\x00\x02\x00\x03".as_slice());
    Ok(())
}
