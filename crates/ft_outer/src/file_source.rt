//! A file as a source.

ghost use Rattle.std.specs.Prelude.{◌≡◌, None, IfOk, IsSome, OnErr, string_bytes};
ghost use Rattle.std.specs.Io.{ReadsAtMost};
ghost use Rattle.std.specs.Io.KnownBytes.{ReadConsumes};
ghost use Rattle.ft_outer.specs.Counts.{HasCause, count_after};
ghost use Rattle.ft_outer.specs.Files.{file_left, file_given};

use crate::open_reader::OpenReader;
use crate::source::{Failed, Source};
use std::fs;
use std::fs::Files;
use std::marker::Model;

/// A file that is opened at the first call. Once it is open, it has left what the system's file has
/// left, where the type of that says its bytes.
///
/// A file that can't be opened is a fault, and the next call tries again.
#[derive(Drop)]
pub struct FileSource<R: Files + Drop> {
    files: R,
    path: String,
    file: Option<OpenReader<R::File>>,
    faults: u64,
}

impl<R: Files + Drop> Model for FileSource<R> {
    ghost use Rattle.std.specs.Prelude.{string_bytes};
    ghost use Rattle.ft_outer.specs.Files.{FileSourceState};

    ghost Value = { FileSourceState };

    ghost view = { λ source. record {
      path = string_bytes source.path;
      file = source.file;
      faults = source.faults;
    } };
}

impl<R: Files + Drop> FileSource<R> {
    /// The file at `path`, which isn't opened yet.
    pub fn new(files: R, path: String) -> FileSource<R>
        ensures { result ≡ record { path = string_bytes path; file = None; faults = 0 } }
    {
        FileSource {
            files,
            path,
            file: None,
            faults: 0,
        }
    }
}

impl<R: Files + Drop> Source for FileSource<R> {
    ghost left = { λ source. file_left source.file };

    ghost given = { λ source. file_given source.file };

    ghost faults = { λ source. source.faults };

    fn read(&mut self, buf: &mut [u8]) -> Result<usize, Failed>
        // What every source keeps.
        ensures bound { ReadsAtMost result buf.new }
        ensures bytes { ReadConsumes (file_left self.old.file) (file_left self.new.file) result
            buf.new }
        ensures counted { IfOk result (λ n. file_given self.new.file
            ≡ count_after (file_given self.old.file) n) }
        ensures uncounted { OnErr result (file_given self.new.file ≡ file_given self.old.file) }
        ensures cause { HasCause self.old.faults self.new.faults result }

        // Only an open file answers, and it is the one of this path.
        ensures open { IfOk result (λ _. IsSome self.new.file) }
        ensures path { self.new.path ≡ self.old.path }
    {
        if self.file.is_none() {
            self.file = match fs::open(&self.files, self.path.as_str()) {
                Ok(file) => Some(OpenReader::new(file)),
                Err(_) => None,
            };
        }
        let answer = match &mut self.file {
            Some(file) => file.read(buf),
            None => Err(Failed),
        };
        if answer.is_err() {
            self.faults = self.faults.saturating_add(1);
        }
        answer
    }
}
