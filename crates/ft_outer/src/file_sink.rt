//! A file as a sink.

ghost use Rattle.std.specs.Prelude.{◌≡◌, ◌<◌, ◌≤◌, length, None, IfOk, IsSome, OnErr, string_bytes};
ghost use Rattle.std.specs.Io.KnownBytes.{WriteAppends};
ghost use Rattle.ft_outer.specs.Counts.{HasCause, count_after};
ghost use Rattle.ft_outer.specs.Files.{file_held, file_taken};

use crate::open_writer::OpenWriter;
use crate::sink::Sink;
use crate::source::Failed;
use std::fs;
use std::fs::Files;
use std::marker::Model;

/// A file that is made, or emptied, at the first call. Once it is made, it holds what the system's
/// file holds, where the type of that says its bytes. Each piece goes to the file at once. Without
/// a call there is no file.
///
/// A file that can't be made is a fault, and the next call tries again. So is a file that takes
/// no byte of a piece that isn't empty.
#[derive(Drop)]
pub struct FileSink<R: Files + Drop> {
    files: R,
    path: String,
    file: Option<OpenWriter<R::File>>,
    faults: u64,
}

impl<R: Files + Drop> Model for FileSink<R> {
    ghost use Rattle.std.specs.Prelude.{string_bytes};
    ghost use Rattle.ft_outer.specs.Files.{FileSinkState};

    ghost Value = { FileSinkState };

    ghost view = { λ sink. record {
      path = string_bytes sink.path;
      file = sink.file;
      faults = sink.faults;
    } };
}

impl<R: Files + Drop> FileSink<R> {
    /// The file at `path`, which isn't made yet.
    pub fn new(files: R, path: String) -> FileSink<R>
        ensures { result ≡ record { path = string_bytes path; file = None; faults = 0 } }
    {
        FileSink {
            files,
            path,
            file: None,
            faults: 0,
        }
    }
}

impl<R: Files + Drop> Sink for FileSink<R> {
    ghost held = { λ sink. file_held sink.file };

    ghost faults = { λ sink. sink.faults };

    fn write(&mut self, piece: &[u8]) -> Result<usize, Failed>
        // What every sink keeps.
        ensures bound { IfOk result (λ n. n ≤ length piece.now) }
        ensures some { IfOk result (λ n. 0 < length piece.now → 0 < n) }
        ensures bytes { WriteAppends (file_held self.old.file) (file_held self.new.file) result
            piece.now }
        ensures cause { HasCause self.old.faults self.new.faults result }

        // The file has taken all that was answered, so it is never made anew once it took a byte.
        ensures open { IfOk result (λ _. IsSome self.new.file) }
        ensures counted { IfOk result (λ n. file_taken self.new.file
            ≡ count_after (file_taken self.old.file) n) }
        ensures uncounted { OnErr result (file_taken self.new.file ≡ file_taken self.old.file) }
        ensures path { self.new.path ≡ self.old.path }
    {
        if self.file.is_none() {
            self.file = match fs::create(&self.files, self.path.as_str()) {
                Ok(file) => Some(OpenWriter::new(file)),
                Err(_) => None,
            };
        }
        let answer = match &mut self.file {
            Some(file) => file.write(piece),
            None => Err(Failed),
        };
        if answer.is_err() {
            self.faults = self.faults.saturating_add(1);
        }
        answer
    }
}
