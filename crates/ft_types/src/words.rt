//! The words of frames that a channel asked for.

ghost use Rattle.std.specs.Prelude.{◌≡◌, ◌≤◌, []};
ghost use Rattle.ft_types.specs.Work as work_of;
ghost use Rattle.ft_types.specs.Words.{words_in};

/// The last two words of frames that were asked for, four frames each; none at first.
#[derive(Clone, Copy)]
pub struct Words {
    /// Number of the last word.
    pub newest: Option<u32>,
    /// Number of the word before it, where there is a last.
    pub older: Option<u32>,
}

impl Words {
    /// No word was asked for.
    pub fn none() -> Words
        ensures { words_in result ≡ [] }
    {
        Words {
            newest: None,
            older: None,
        }
    }

    /// This word is asked for.
    pub fn ask(&mut self, word: u32)
        ensures { words_in self.new ≡ work_of.asked word (words_in self.old) }
    {
        if self.newest == Some(word) {
            return;
        }
        self.older = self.newest;
        self.newest = Some(word);
    }

    /// All words from one to another are asked for in turn.
    pub fn ask_all(&mut self, from: u32, to: u32)
        requires { from ≤ to }
        ensures { words_in self.new ≡ work_of.asked_all from to (words_in self.old) }
    {
        if to == from {
            self.ask(to);
            return;
        }
        self.older = Some(to - 1);
        self.newest = Some(to);
    }
}
