//! The desk of a register.

ghost use Rattle.std.specs.Prelude.{◌≡◌, ℕ, ◌≤◌, ◌<◌, None, IfOk, IfErr, IsSome, IsSomeAnd, All};
ghost use Rattle.std.specs.Vec.{vec_capacity};
ghost use Rattle.std.specs.Result.{IsErrOf};
ghost use Rattle.ft_types.specs.Valid.{IsValid};
ghost use Rattle.ft_types.specs.Blocks.{blocks_of};
ghost use Rattle.ft_shared.specs.Account.{after_note_made, after_settle, after_resume, last_settled};
ghost use Rattle.ft_shared.specs.History.{Agrees, AreSound};
ghost use Rattle.ft_shared.specs.Pass.{fresh_passes, hold_at, resumed_pass};
ghost use Rattle.ft_shared.specs.Segments.{KeepsHeld};
ghost use Rattle.ft_shared.specs.declared.shared.OpenFault.TheVariants.{PoolSmall, NoMemory};
ghost use Rattle.ft_image.specs.Laid.{song_laid};
ghost use Rattle.ft_desk.specs.Desk.{IsDesk, IsOpened, desk_of, born_parts};
ghost use Rattle.ft_desk.specs.Parts.{opening_parts, part_of};

use crate::reserving::reserve;
use ft_image::{place, shown_has_blocks, shown_stays};
use ft_retire::{Births, lives_law};
use ft_shared::{Note, OpenFault, ReaderPass, ReaderPasses, Settled, Shared, WriterPass};
use ft_types::{Journal, Module, blocks};
use std::alloc::Global;
use std::marker::Model;
use std::snapshot::Snapshot;

/// The desk of a register: the writer's pass, the journal of what was committed and refused, and
/// what commits need beside it. Contracts see the pass, the journal, the births, for how many
/// segments there is room, and the song and the version with which the desk was opened.
#[derive(Drop)]
pub struct Desk {
    pass: WriterPass,
    journal: Journal,
    /// The current version.
    version: u32,
    /// The birth and the death of each segment, and the marks of a commit.
    births: Births,
    /// The segments that a commit fills: it has room for all of the pool.
    fresh: Vec<u16>,
    opening: Snapshot<Module>,
    first: Snapshot<u32>,
}

impl Model for Desk {
    ghost use Rattle.std.specs.Prelude.{◌≡◌};
    ghost use Rattle.std.specs.Vec.{vec_capacity};
    ghost use Rattle.ft_desk.specs.Desk.{DeskState, IsDesk, desk_of};

    ghost Value = { DeskState };

    ghost view = { λ desk. desk_of desk.pass desk.journal desk.births (vec_capacity desk.fresh)
        desk.opening.value desk.first.value };

    ghost invariant = { λ desk. (desk.pass.account.version ≡ desk.version)
        × IsDesk (desk_of desk.pass desk.journal desk.births (vec_capacity desk.fresh)
        desk.opening.value desk.first.value) };
}

impl Desk {
    /// Opens a register of `segments` segments for 1 to 8 readers, with the song as the version
    /// `version`, and its desk. The song must be valid.
    ///
    /// What commits need is reserved, but for the journal, which takes its own memory at each of
    /// them: births that fit the version, marks, and room for a list of all segments.
    ///
    /// `PoolSmall` comes exactly where the blocks of the song are more than the segments, which it
    /// names as what is needed. So `NoMemory` comes only where the song fits. After a refusal
    /// nothing was made.
    pub fn open(
        alloc: Global,
        m: &Module,
        segments: u16,
        readers: u8,
        version: u32,
    ) -> Result<(Shared, Desk, ReaderPasses), OpenFault>
        requires valid { IsValid m.now }
        requires readers { (1 ≤ readers) × (readers ≤ 8) }
        ensures small { segments < blocks_of m.now
            → IsErrOf result (PoolSmall (blocks_of m.now) segments) }
        ensures memory { blocks_of m.now ≤ segments
            → IfErr result (λ fault. fault ≡ NoMemory) }
        ensures fits { IsErrOf result NoMemory → blocks_of m.now ≤ segments }
        ensures sizes { IfOk result (λ made. made.0.sizes ≡ record {
          segments = segments;
          readers = readers;
          channels = m.now.channels;
        }) }
        ensures passes { IfOk result (λ made. made.2 ≡ fresh_passes made.0 readers) }
        ensures desk { IfOk result (λ made. IsOpened made.0 m.now version made.1) }
        ensures parts { IfOk result (λ made.
            born_parts made.1 ≡ opening_parts segments version (song_laid m.now)) }
        ensures others { IfOk result (λ made. (segment : ℕ) → blocks_of m.now ≤ segment
            → part_of (song_laid m.now) segment ≡ None) }
    {
        let need = blocks(m);
        if need > u32::from(segments) {
            return Err(OpenFault::PoolSmall { need, segments });
        }
        let Ok(image) = place(alloc, m) else {
            return Err(OpenFault::NoMemory);
        };
        let Ok(reserved) = reserve(alloc, segments, need as u16, version) else {
            return Err(OpenFault::NoMemory);
        };
        let (shared, pass, passes) = Shared::open(
            alloc,
            segments,
            readers,
            m.channels,
            version,
            image.root(),
            image.words(),
        )?;
        shown_stays();
        shown_has_blocks();
        lives_law();
        let (births, fresh) = reserved;
        let desk = Desk::on(pass, Journal::new(alloc), births, fresh, m, version);
        Ok((shared, desk, passes))
    }

    fn on(
        pass: WriterPass,
        journal: Journal,
        births: Births,
        fresh: Vec<u16>,
        m: &Module,
        version: u32,
    ) -> Desk
        requires desk { IsDesk (desk_of pass journal births (vec_capacity fresh) m.now version) }
        requires version { pass.account.version ≡ version }
        ensures { result ≡ desk_of pass journal births (vec_capacity fresh) m.now version }
    {
        Desk {
            pass,
            journal,
            version,
            births,
            fresh,
            opening: Snapshot::of(m),
            first: Snapshot::of(&version),
        }
    }

    /// What holds of every desk: the journal is lawful from the opening song and version, the
    /// versions of the history are those that were committed, and each of them shows the song at
    /// it. The current version is in the words last written. A segment that was not written since a
    /// version was placed, as one that is held, has that version's entry in the list of parts, and
    /// births fit each version that was not written since. What commits need is reserved. It does
    /// nothing.
    pub fn history_law(&self)
        ensures { IsDesk self.now }
    {
        let _ = &self.journal;
    }

    /// The current version: that of the last entry, or the opening one where there is none.
    pub fn current(&self) -> u32
        ensures { result ≡ self.now.writer.account.version }
    {
        self.version
    }

    /// What was committed and refused.
    pub fn journal(&self) -> &Journal
        ensures { result.now ≡ self.now.journal }
    {
        &self.journal
    }

    /// A note of the current version, for one reader to hear. `shared` is what was opened with this
    /// desk. One load.
    pub fn note(&mut self, shared: &Shared) -> Note
        requires { self.old.writer.register ≡ shared.now }
        ensures noted { self.new ≡ record self.old {
          writer = record self.old.writer { account = after_note_made self.old.writer.account };
        } }
        ensures note { result ≡ record {
          register = shared.now;
          version = self.old.writer.account.version;
        } }
    {
        shared.note(&mut self.pass)
    }

    /// Gives up a reader's pass. What it held stays held: a version, and its pins. The desk's
    /// history agrees with all that the pass has noted, and with what each settled pass has. What
    /// is known to be held was not written since its version was placed. `shared` is what was opened
    /// with this desk. Two loads.
    pub fn settle(&mut self, shared: &Shared, pass: ReaderPass) -> Settled
        requires same { self.old.writer.register ≡ shared.now }
        requires pass { pass.register ≡ shared.now }
        ensures settled { self.new ≡ record self.old {
          writer = record self.old.writer {
            account = after_settle self.old.writer.account (hold_at pass);
          };
        } }
        ensures version { result.version ≡ self.old.writer.account.version }
        ensures agrees { Agrees self.new.writer.account.history pass.notes }
        ensures all { All (λ hold. Agrees self.new.writer.account.history hold.notes)
            self.new.writer.account.settled }
        ensures sound { AreSound shared.now.sizes.segments self.new.writer.account.history }
        ensures kept { KeepsHeld self.new.writer.account }
    {
        shared.settle(&mut self.pass, pass)
    }

    /// Gives back the pass that was settled last and not yet resumed, with all that it held and
    /// has noted. From now on each look and each take of it gives at least the current version.
    /// `shared` is what was opened with this desk. One load.
    pub fn resume(&mut self, shared: &Shared) -> ReaderPass
        requires same { self.old.writer.register ≡ shared.now }
        requires some { IsSome (last_settled self.old.writer.account) }
        ensures resumed { self.new ≡ record self.old {
          writer = record self.old.writer {
            account = after_resume self.old.writer.account;
          };
        } }
        ensures pass { IsSomeAnd (last_settled self.old.writer.account)
            (λ hold. result ≡ resumed_pass shared.now hold self.old.writer.account.version) }
    {
        shared.resume(&mut self.pass)
    }
}
