//! A reader hears a note of the desk, gives up its pass, and gets it back.

ghost use Rattle.std.specs.Prelude.{◌≡◌, ◌<◌};
ghost use Rattle.ft_shared.specs.Pass.{fresh_pass};

use crate::opening::SILENT;
use crate::songs::song_of;
use ft_desk::Desk;
use ft_shared::{ReaderPass, Shared};
use ft_types::{Module, Steps, valid};
use std::alloc::Global;
use std::marker::Brand;
use std::sync::ledger::{Blank, Ledger};
use std::test::Fail;

/// Versions: of a look and a take, of a note, where the pass is settled, of a look of the pass that
/// is given back, and where that is settled.
type Versions = (u32, u32, u32, u32, u32, u32);

/// The versions, while a pass that was never used goes to a desk and back.
fn versions_of<L: Ledger>(
    blank: Blank,
    shared: &Shared,
    desk: &mut Desk,
    mut pass: ReaderPass,
) -> Versions
    requires blank { (blank.name ≡ L.name) × (blank.parts ≡ L.parts) × (0 < L.parts) }
    requires desk { desk.old.writer.register ≡ shared.now }
    requires pass { pass ≡ fresh_pass shared.now 0 }
{
    let mut steps = Steps::<L>::open(blank);
    let looked = shared.look(&mut pass, &mut steps);
    let held = shared.take(&mut pass, &mut steps);
    let note = desk.note(shared);
    let noted = note.version();
    shared.hear(&mut pass, note);
    let settled = desk.settle(shared, pass);
    let mut back = desk.resume(shared);
    let again = shared.look(&mut back, &mut steps);
    let last = desk.settle(shared, back);
    (
        looked,
        held.version,
        noted,
        settled.version,
        again,
        last.version,
    )
}

/// The versions of a desk that is opened at this version.
fn versions_at(alloc: Global, song: &Module, version: u32) -> Option<Versions> {
    if !valid(song) {
        return None;
    }
    let Ok((shared, mut desk, mut passes)) = Desk::open(alloc, song, 64, 1, version) else {
        return None;
    };
    let Some(pass) = passes.next() else {
        return None;
    };
    Some(versions_of::<Brand>(Blank::new(1), &shared, &mut desk, pass))
}

#[test]
fn a_pass_goes_to_the_desk_and_comes_back(rt: HostRuntime) -> Result<(), Fail> {
    let song = song_of(rt.alloc(), SILENT)?;
    let versions = versions_at(rt.alloc(), &song, 5);
    assert!(rt; versions == Some((5, 5, 5, 5, 5, 5)));
    let last = 4_294_967_295;
    let versions = versions_at(rt.alloc(), &song, last);
    assert!(rt; versions == Some((last, last, last, last, last, last)));
    Ok(())
}
