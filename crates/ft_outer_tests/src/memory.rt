//! Sources and sinks in memory.

ghost use Rattle.std.specs.Prelude.{◌≡◌, IfOk};

use ft_outer::{
    Failed, MemSink, MemSource, ReadFault, Sink, Source, SureSink, SureSource, WriteFault, put_all,
    read_all,
};
use std::alloc::{AllocError, Global};
use std::test::Fail;

/// What the calls of a source of 1, 2, 3, 4, 5 in pieces of two answer, where the second fails, and
/// the front of a buffer of zeros after each of them.
static READS: [(Result<usize, Failed>, [u8; 2]); 5] = [
    (Ok(2), [1, 2]),
    (Err(Failed), [1, 2]),
    (Ok(2), [3, 4]),
    (Ok(1), [5, 4]),
    (Ok(0), [5, 4]),
];

fn source_of(alloc: Global, bytes: &[u8], fails: &[u32]) -> Result<MemSource, AllocError>
    ensures { IfOk result (λ source. source.supply.given ≡ 0) }
{
    Ok(MemSource::new(bytes.to_vec(alloc)?, 2, fails.to_vec(alloc)?))
}

#[test]
fn a_source_gives_pieces_and_fails_at_its_calls(rt: HostRuntime) -> Result<(), Fail> {
    let mut source = source_of(rt.alloc(), &[1, 2, 3, 4, 5], &[2])?;
    let mut buf = [0; 4];
    for (answer, front) in READS.iter() {
        let got = source.read(&mut buf);
        assert!(rt; got == *answer && buf == [front[0], front[1], 0, 0]);
    }
    Ok(())
}

/// What the calls of a sink of four bytes' room answer to `abcd`, in pieces of three, where the first
/// fails.
static WRITES: [Result<usize, Failed>; 4] = [Err(Failed), Ok(3), Ok(1), Err(Failed)];

#[test]
fn a_sink_takes_pieces_until_its_room_is_full(rt: HostRuntime) -> Result<(), Fail> {
    let mut sink = MemSink::new(rt.alloc(), 4, 3, [1].to_vec(rt.alloc())?)?;
    for answer in WRITES.iter() {
        assert!(rt; sink.write(b"abcd") == *answer);
    }
    assert!(rt; sink.write(b"") == Ok(0) && sink.bytes() == b"abca".as_slice());
    Ok(())
}

/// How reading `abcde` ends, where that many bytes are wanted at most and these calls fail.
static ENDS: [(u16, &[u32], Result<usize, ReadFault>); 4] = [
    (5, &[], Ok(5)),
    (4, &[], Err(ReadFault::TooBig)),
    (5, &[2], Err(ReadFault::Failed)),
    (0, &[], Err(ReadFault::TooBig)),
];

/// How many bytes are read of `abcde`.
fn read_of(alloc: Global, most: u16, fails: &[u32]) -> Result<usize, ReadFault> {
    let mut source = source_of(alloc, b"abcde", fails)?;
    Ok(read_all(alloc, &mut source, usize::from(most))?.len())
}

#[test]
fn all_is_read_up_to_the_limit(rt: HostRuntime) {
    for (most, fails, answer) in ENDS.iter() {
        assert!(rt; read_of(rt.alloc(), *most, fails) == *answer);
    }
}

#[test]
fn a_short_room_keeps_a_front(rt: HostRuntime) -> Result<(), Fail> {
    let mut sink = SureSink::new(rt.alloc(), 3, 2)?;
    assert!(rt; put_all(&mut sink, b"abcd") == Err(WriteFault));
    assert!(rt; sink.bytes() == b"abc".as_slice());
    Ok(())
}

fn crosses_threads<T: Send>(_value: &T) {}

#[test]
fn sources_and_sinks_cross_threads(rt: HostRuntime) -> Result<(), Fail> {
    crosses_threads(&source_of(rt.alloc(), b"", &[])?);
    crosses_threads(&SureSource::new(Vec::new(rt.alloc()), 1));
    crosses_threads(&MemSink::new(rt.alloc(), 1, 1, Vec::new(rt.alloc()))?);
    crosses_threads(&SureSink::new(rt.alloc(), 1, 1)?);
    Ok(())
}
