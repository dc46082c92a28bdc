//! A reader gives up its pass to the writer, and may get it back.
ghost use Rattle.std.specs.Prelude.{◌≡◌, All, IsSome, IsSomeAnd};
ghost use Rattle.ft_shared.specs.History.{Agrees, AreSound};
ghost use Rattle.ft_shared.specs.Account.{after_settle, after_resume, last_settled};
ghost use Rattle.ft_shared.specs.Segments.{KeepsHeld};
ghost use Rattle.ft_shared.specs.Pass.{hold_at, resumed_pass};

use crate::plays::{LearnSettled, Resume, Settle};
use crate::reader::ReaderPass;
use crate::shared::Shared;
use crate::writer::WriterPass;

/// What `Shared::settle` gives.
#[derive(Clone, Copy, Debug, PartialEq, Eq)]
pub struct Settled {
    /// The number of the version that was current then.
    pub version: u32,
}

impl Shared {
    /// Gives up a reader's pass. What it held stays held: a version, and its pins. The writer's
    /// history agrees with all that the pass has noted, and with what each settled pass has. The
    /// walk of each version of the history stays in the pool. Nothing that is known to be held,
    /// by this pass too, was written since its version was placed. Two loads.
    pub fn settle(&self, writer: &mut WriterPass, reader: ReaderPass) -> Settled
        requires writer { writer.old.register ≡ self.now }
        requires reader { reader.register ≡ self.now }
        ensures settled { writer.new ≡ record writer.old {
          account = after_settle writer.old.account (hold_at reader);
        } }
        ensures version { result.version ≡ writer.old.account.version }
        ensures agrees { Agrees writer.new.account.history reader.notes }
        ensures all { All (λ hold. Agrees writer.new.account.history hold.notes)
            writer.new.account.settled }
        ensures sound { AreSound self.now.sizes.segments writer.new.account.history }
        ensures kept { KeepsHeld writer.new.account }
    {
        let (place, kept) = reader.parts();
        self.words.join_seat::<Settle>(&mut writer.place, place);
        let word = self.words.scan_load::<LearnSettled>(&mut writer.place, 0);
        writer.settled[writer.many as usize] = kept;
        writer.many += 1;
        Settled {
            version: (word >> 32) as u32,
        }
    }

    /// Gives back the pass that was settled last and not yet resumed, with all that it held and
    /// has noted. From now on each look and each take of it gives at least the version that is
    /// current. One load.
    pub fn resume(&self, writer: &mut WriterPass) -> ReaderPass
        requires same { writer.old.register ≡ self.now }
        requires some { IsSome (last_settled writer.old.account) }
        ensures resumed { writer.new
            ≡ record writer.old { account = after_resume writer.old.account } }
        ensures pass { IsSomeAnd (last_settled writer.old.account)
            (λ hold. result ≡ resumed_pass self.now hold writer.old.account.version) }
    {
        let place = self.words.split_seat::<Resume>(&mut writer.place);
        writer.many -= 1;
        ReaderPass::again(place, writer.settled[writer.many as usize])
    }
}
