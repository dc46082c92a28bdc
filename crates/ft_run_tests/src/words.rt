//! Command lines.

use crate::runs::{SECOND, end_of, is_refused, words_of};
use ft_run::Status;
use ft_songs::silent_song;
use ft_words::{Asked, FileNames, NamesFault, Step, Texts, asked, names};
use std::alloc::{AllocError, Global};
use std::test::Fail;

/// Words that are no command.
static REFUSED: [&str; 34] = [
    "",
    "step",
    "step a b",
    "play a b",
    "play a b c",
    "step a b c d",
    "step a b c --rate=7999",
    "step a b c --rate=48001",
    "step a b c --rate=",
    "step a b c --rate=8000x",
    "step a b c --rate=99999999999999999999",
    "step a b c --seconds=0",
    "step a b c --seconds=1201",
    "step a b c --segments=63",
    "step a b c --segments=65536",
    "step a b c --segments=",
    "step a b c --segments=-64",
    "step a b c --rate=8000 --rate=8000",
    "step a b c --segments=64 --segments=64",
    "step a b c --rate=8000 --seconds=1 d",
    "step a b --rate=8000",
    "copy a",
    "copy a b c",
    "copy a b --rate=8000",
    "import a",
    "import a b c",
    "import a b --rate=8000",
    "gen 7 out --segments=64",
    "gen 7",
    "gen x out",
    "gen -1 out",
    "gen 4294967296 out",
    "step a b c --help",
    "Step a b c",
];

/// What the words ask for.
fn asked_for(alloc: Global, text: &str) -> Result<Asked, NamesFault> {
    asked(alloc, &words_of(alloc, text)?)
}

/// The files that the words name.
fn named(alloc: Global, text: &str) -> Result<FileNames, NamesFault> {
    names(alloc, &words_of(alloc, text)?)
}

/// Whether nothing is made of the words, and nothing is run.
fn is_usage(alloc: Global, text: &str, song: &[u8]) -> bool {
    asked_for(alloc, text) == Err(NamesFault::Usage)
        && matches!(named(alloc, text), Err(NamesFault::Usage))
        && is_refused(alloc, text, song, Status::Usage)
}

#[test]
fn words_that_are_no_command_are_refused(rt: HostRuntime) -> Result<(), Fail> {
    let song = silent_song(rt.alloc())?;
    for text in REFUSED.iter() {
        assert!(rt; is_usage(rt.alloc(), text, &song), "{text}");
    }
    Ok(())
}

/// Words of `step`, with the rate, the seconds and the segments that they ask for. The options come
/// in any order, behind `=` or a blank.
static STEPS: [(&str, u32, u32, u16); 8] = [
    ("step a b c", 44_100, 60, 16_384),
    ("step a b c --rate=8000 --seconds=1", 8_000, 1, 16_384),
    (
        "step a b c --seconds=1200 --rate=48000",
        48_000,
        1_200,
        16_384,
    ),
    ("step --rate 8000 a --seconds 1 b c", 8_000, 1, 16_384),
    ("step a b c --seconds 2", 44_100, 2, 16_384),
    ("step a b c --rate=48000", 48_000, 60, 16_384),
    ("step a b c --segments=64", 44_100, 60, 64),
    ("step --segments 65535 a b c --seconds=1", 44_100, 1, 65_535),
];

/// Other words, with what they ask for.
static OTHERS: [(&str, Asked); 4] = [
    ("copy a b", Asked::Copy),
    ("gen 0 out", Asked::Gen { number: 0 }),
    ("gen 7 out", Asked::Gen { number: 7 }),
    (
        "gen 4294967295 out",
        Asked::Gen {
            number: 4_294_967_295,
        },
    ),
];

#[test]
fn words_ask_for_one_thing(rt: HostRuntime) {
    for (text, rate, seconds, segments) in STEPS.iter() {
        let step = Asked::Step(Step {
            rate: *rate,
            seconds: *seconds,
            segments: *segments,
        });
        assert!(rt; asked_for(rt.alloc(), text) == Ok(step), "{text}");
    }
    for (text, what) in OTHERS.iter() {
        assert!(rt; asked_for(rt.alloc(), text) == Ok(*what), "{text}");
    }
}

/// The files that words name, song, WAV and ledger; an empty name stands for none.
static NAMED: [(&str, [&str; 3]); 5] = [
    ("step a.xm b.wav c", ["a.xm", "b.wav", "c"]),
    ("step a --rate=8000 b c --seconds 1200", ["a", "b", "c"]),
    ("step -- --a b c", ["--a", "b", "c"]),
    ("copy a b", ["a", "b", ""]),
    ("gen 7 out", ["", "out", ""]),
];

/// Whether a list is this one name, or has none where it is empty.
fn is_list_of(texts: &Texts, name: &str) -> bool {
    match texts.get(0) {
        Some(text) => texts.len() == 1 && text.as_str() == name,
        None => name.is_empty(),
    }
}

/// Whether words name just these files.
fn names_files(alloc: Global, text: &str, files: &[&str; 3]) -> bool {
    let Ok(found) = named(alloc, text) else {
        return false;
    };
    is_list_of(&found.song, files[0])
        && is_list_of(&found.wav, files[1])
        && is_list_of(&found.ledger, files[2])
        && found.scripts.len() == 0
}

#[test]
fn words_name_their_files(rt: HostRuntime) {
    for (text, files) in NAMED.iter() {
        assert!(rt; names_files(rt.alloc(), text, files), "{text}");
    }
}

/// Words that play one second.
static PLAYED: [&str; 4] = [
    SECOND,
    "step a b c --seconds=1 --rate=8000",
    "step --rate=8000 a --seconds 1 b c",
    "step a b c --rate 8000 --seconds 1",
];

/// How many bytes the WAV file of these words has.
fn played(alloc: Global, text: &str) -> Result<u64, AllocError> {
    let end = end_of(alloc, text, &silent_song(alloc)?)?;
    Ok(if end.status == Status::Done {
        end.wav
    } else {
        0
    })
}

#[test]
fn options_stand_anywhere(rt: HostRuntime) {
    for text in PLAYED.iter() {
        assert!(rt; played(rt.alloc(), text) == Ok(32_044), "{text}");
    }
}
