//! Real files.

ghost use Rattle.std.specs.Prelude.{◌≡◌, None, IfOk};

use ft_outer::{Failed, FileSink, FileSource, OutSink, Sink, Source, put_all, read_all};
use std::alloc::AllocError;
use std::test::Fail;
use std::{fs, io};

/// The sink of a file in the folder where the tests run.
fn sink_of(rt: HostRuntime, name: &str) -> Result<FileSink<HostRuntime>, AllocError> {
    Ok(FileSink::new(rt, String::from_str(rt.alloc(), name)?))
}

/// The source of such a file.
fn source_of(rt: HostRuntime, name: &str) -> Result<FileSource<HostRuntime>, AllocError>
    ensures { IfOk result (λ source. source.file ≡ None) }
{
    Ok(FileSource::new(rt, String::from_str(rt.alloc(), name)?))
}

/// Whether a file is what two writes of it said.
fn comes_back(rt: HostRuntime, name: &str) -> Result<bool, Fail> {
    let mut sink = sink_of(rt, name)?;
    let written = put_all(&mut sink, b"written twice, ").is_ok()
        && put_all(&mut sink, b"read once").is_ok();
    let mut source = source_of(rt, name)?;
    let read = read_all(rt.alloc(), &mut source, 100);
    fs::remove_file(&rt, name)?;
    Ok(
        written
            && matches!(read, Ok(bytes) if bytes.as_slice() == b"written twice, read once".as_slice()),
    )
}

#[test]
fn a_file_comes_back(rt: HostRuntime) -> Result<(), Fail> {
    assert!(rt; comes_back(rt, "outer_round_trip.tmp")?);
    Ok(())
}

/// A sink makes its file at the first call, also of an empty piece, and not before.
fn is_made_when_called(rt: HostRuntime, name: &str) -> Result<bool, Fail> {
    let mut sink = sink_of(rt, name)?;
    let before = fs::exists(&rt, name)?;
    let answer = sink.write(b"");
    let after = fs::exists(&rt, name)?;
    fs::remove_file(&rt, name)?;
    Ok(!before && answer == Ok(0) && after)
}

#[test]
fn a_file_is_made_at_the_first_call(rt: HostRuntime) -> Result<(), Fail> {
    assert!(rt; is_made_when_called(rt, "outer_made.tmp")?);
    Ok(())
}

/// Calls with no bytes at all fail too.
#[test]
fn a_missing_file_fails_at_each_call(rt: HostRuntime) -> Result<(), Fail> {
    let mut source = source_of(rt, "no_such_folder/missing.tmp")?;
    assert!(rt; source.read(&mut []) == Err(Failed) && source.read(&mut [0; 8]) == Err(Failed));
    let mut sink = sink_of(rt, "no_such_folder/missing.tmp")?;
    assert!(rt; sink.write(b"") == Err(Failed) && sink.write(b"a") == Err(Failed));
    Ok(())
}

fn crosses_threads<T: Send>(_value: &T) {}

#[test]
fn adapters_cross_threads(rt: HostRuntime) -> Result<(), Fail> {
    crosses_threads(&source_of(rt, "none")?);
    crosses_threads(&sink_of(rt, "none")?);
    crosses_threads(&OutSink::new(io::writer(&rt)));
    Ok(())
}
