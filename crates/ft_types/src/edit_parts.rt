//! The table of edits, and edits in parts.

ghost use Rattle.std.specs.Prelude.{◌≡◌, ◌<◌, ◌≤◌, All, FitsSigned, length, IfOk};
ghost use Rattle.std.specs.Int.{w16};
ghost use Rattle.ft_types.specs.Valid.{IsBytes};
ghost use Rattle.ft_types.specs.declared.edit_kind.NumberType.TheVariants as types;
ghost use Rattle.ft_types.specs.Signatures.{signature, AreOfTypes, clip, natural, at, padded};
ghost use Rattle.ft_types.specs.EditParts.{edit_parts, edit_of, IsLastPart, EditHasRanges};

use crate::edit::Edit;
use crate::edit_kind::{EditKind, LastType, NumberType};
use crate::no_memory::NoMemory;
use crate::sample::Frames;
use arrayvec::ArrayVec;
use std::alloc::Global;

/// Gives the table of edits to a macro. A row is a kind, its name, its numbers, and what comes
/// behind them, if anything does. A number is a field, its type, and how many come before it.
macro_rules! edits {
    ($then:ident $given:tt) => {
        $then! {
            $given
            Cell "cell" [p u8 0, r u16 1, c u8 2, note u8 3, ins u8 4, vol u8 5, eff u8 6, par u8 7];
            Rows "rows" [p u8 0, n u16 1];
            Insrow "insrow" [p u8 0, r u16 1];
            Delrow "delrow" [p u8 0, r u16 1];
            Clear "clear" [p u8 0, r u16 1, c u8 2, h u16 3, w u8 4];
            Transpose "transpose" [p u8 0, r u16 1, c u8 2, h u16 3, w u8 4, d i8 5];
            Copy "copy" [p u8 0, r u16 1, c u8 2, h u16 3, w u8 4, q u8 5, r2 u16 6, c2 u8 7];
            Order "order" [pos u16 0, p u8 1];
            Insorder "insorder" [pos u16 0, p u8 1];
            Delorder "delorder" [pos u16 0];
            Restart "restart" [pos u16 0];
            Tempo "tempo" [n u8 0];
            Bpm "bpm" [n u8 0];
            Title "title" [] Title name;
            Newpat "newpat" [n u16 0];
            Delpat "delpat" [];
            Newins "newins" [];
            Clearins "clearins" [i u8 0];
            Insname "insname" [i u8 0] Name name;
            Map "map" [i u8 0, n u8 1, k u8 2];
            Env "env" [i u8 0, w u8 1, count u8 2, sus u8 3, ls u8 4, le u8 5, flags u8 6];
            Point "point" [i u8 0, w u8 1, k u8 2, x u16 3, y u8 4];
            Vib "vib" [i u8 0, kind u8 1, sweep u8 2, depth u8 3, rate u8 4];
            Fade "fade" [i u8 0, n u16 1];
            Newsmp "newsmp" [i u8 0];
            Delsmp "delsmp" [i u8 0];
            Smpname "smpname" [i u8 0, s u8 1] Name name;
            Smp "smp" [i u8 0, s u8 1, vol u8 2, fine i8 3, rel i8 4, pan u8 5];
            Loop "loop" [i u8 0, s u8 1, kind u8 2, start u32 3, len u32 4];
            Cut "cut" [i u8 0, s u8 1, from u32 2, to u32 3];
            Paste "paste" [i u8 0, s u8 1, at u32 2] Frames frames;
            Reverse "reverse" [i u8 0, s u8 1, from u32 2, to u32 3];
            Scale "scale" [i u8 0, s u8 1, from u32 2, to u32 3, n i16 4, d u16 5];
            Bits "bits" [i u8 0, s u8 1, b u8 2];
        }
    };
}

macro_rules! number_type {
    (u8) => { NumberType::U8 };
    (u16) => { NumberType::U16 };
    (u32) => { NumberType::U32 };
    (i8) => { NumberType::I8 };
    (i16) => { NumberType::I16 };
}

macro_rules! last_type {
    () => { LastType::Nothing };
    ($last:ident) => { LastType::$last };
}

macro_rules! name_of {
    (($of:expr) $($kind:ident $name:literal [$($n:ident $t:ident $i:literal),*] $($last:ident $l:ident)?;)*) => {
        match $of { $(EditKind::$kind => $name,)* }
    };
}

macro_rules! numbers_of {
    (($of:expr) $($kind:ident $name:literal [$($n:ident $t:ident $i:literal),*] $($last:ident $l:ident)?;)*) => {
        match $of { $(EditKind::$kind => &[$(number_type!($t)),*],)* }
    };
}

macro_rules! last_of {
    (($of:expr) $($kind:ident $name:literal [$($n:ident $t:ident $i:literal),*] $($last:ident $l:ident)?;)*) => {
        match $of { $(EditKind::$kind => last_type!($($last)?),)* }
    };
}

macro_rules! kind_of {
    (($edit:expr) $($kind:ident $name:literal [$($n:ident $t:ident $i:literal),*] $($last:ident $l:ident)?;)*) => {
        match $edit { $(Edit::$kind { .. } => EditKind::$kind,)* }
    };
}

macro_rules! numbers_in {
    (($edit:expr) $($kind:ident $name:literal [$($n:ident $t:ident $i:literal),*] $($last:ident $l:ident)?;)*) => {
        match *$edit { $(Edit::$kind { $($n,)* .. } => list([$($n as i64),*]),)* }
    };
}

macro_rules! last_made {
    (Title $alloc:ident $parts:ident) => { filled($parts.name) };
    (Name $alloc:ident $parts:ident) => { filled($parts.name) };
    (Frames $alloc:ident $parts:ident) => { copy_frames($parts.frames, $alloc)? };
}

macro_rules! made {
    (($alloc:ident $parts:ident $numbers:ident) $($kind:ident $name:literal [$($n:ident $t:ident $i:literal),*] $($last:ident $l:ident)?;)*) => {
        match $parts.kind {
            $(EditKind::$kind => Ok(Edit::$kind {
                $($n: $t($numbers, $i),)*
                $($l: last_made!($last $alloc $parts),)?
            }),)*
        }
    };
}

impl EditKind {
    /// The name of this kind.
    pub fn name(self) -> &'static str
        ensures { result.now ≡ (signature self).name }
    {
        edits!(name_of(self))
    }

    /// The types of its numbers, in order.
    pub fn numbers(self) -> &'static [NumberType]
        ensures value { result.now ≡ (signature self).numbers }
        ensures few { length result.now ≤ 11 }
    {
        edits!(numbers_of(self))
    }

    /// What comes behind its numbers.
    pub fn last(self) -> LastType
        ensures { result ≡ (signature self).last }
    {
        edits!(last_of(self))
    }
}

/// An edit in parts, which takes no memory.
#[derive(Drop)]
pub struct EditParts<'a> {
    /// What it does.
    pub kind: EditKind,
    /// Its numbers, in order.
    pub numbers: ArrayVec<i64, 11>,
    /// Its name, or no bytes.
    pub name: &'a [u8],
    /// Its frames, or none.
    pub frames: &'a [i16],
}

/// These numbers.
fn list<const N: usize>(numbers: [i64; N]) -> ArrayVec<i64, 11>
    requires { N ≤ 11 }
    ensures { result.items ≡ numbers.entry }
{
    let mut list = ArrayVec::new();
    let _ = list.try_extend_from_slice(&numbers);
    list
}

/// The number behind `i` others, or 0.
#[tactic(auto, using(crate::proofs::Signed::at_is, crate::proofs::Signed::at_past))]
fn number(numbers: &[i64], i: usize) -> i64
    ensures { result ≡ at numbers.now i }
{
    if i < numbers.len() { numbers[i] } else { 0 }
}

/// The number behind `i` others, or 0 where it is none of 0 to 255.
fn u8(numbers: &[i64], i: usize) -> u8
    ensures { result ≡ natural (clip types.U8 (at numbers.now i)) }
{
    u8::try_from(number(numbers, i)).unwrap_or(0)
}

/// The number behind `i` others, or 0 where it is none of 0 to 65,535.
fn u16(numbers: &[i64], i: usize) -> u16
    ensures { result ≡ natural (clip types.U16 (at numbers.now i)) }
{
    u16::try_from(number(numbers, i)).unwrap_or(0)
}

/// The number behind `i` others, or 0 where it is none of 0 to 4,294,967,295.
fn u32(numbers: &[i64], i: usize) -> u32
    ensures { result ≡ natural (clip types.U32 (at numbers.now i)) }
{
    u32::try_from(number(numbers, i)).unwrap_or(0)
}

/// The number behind `i` others, or 0 where it is none of -128 to 127.
fn i8(numbers: &[i64], i: usize) -> i8
    ensures { result ≡ clip types.I8 (at numbers.now i) }
{
    i8::try_from(number(numbers, i)).unwrap_or(0)
}

/// The number behind `i` others, or 0 where it is none of -32,768 to 32,767.
fn i16(numbers: &[i64], i: usize) -> i16
    ensures { result ≡ clip types.I16 (at numbers.now i) }
{
    i16::try_from(number(numbers, i)).unwrap_or(0)
}

/// The first `N` bytes; those that are missing are 0.
fn filled<const N: usize>(bytes: &[u8]) -> [u8; N]
    ensures { result ≡ padded N bytes.now }
{
    let mut name = [0; N];
    let len = bytes.len().min(N);
    name[..len].copy_from_slice(&bytes[..len]);
    name
}

/// How many bytes there are. Each of them is one.
fn length_of(bytes: &[u8]) -> usize
    ensures value { result ≡ length bytes.now }
    ensures each { All (λ byte. byte < 256) bytes.now }
{
    bytes.len()
}

/// The bytes of a name.
fn bytes_of<const N: usize>(name: &[u8; N]) -> &[u8]
    ensures value { result.now ≡ name.now }
    ensures bytes { IsBytes N name.now }
{
    let bytes = name.as_slice();
    let _all = length_of(bytes);
    bytes
}

/// These frames. Each of them has 16 bits, which is all that the loop is for.
fn all_of(frames: &[i16]) -> &[i16]
    ensures value { result.now ≡ frames.now }
    ensures each { All (FitsSigned w16) frames.now }
{
    for frame in frames.iter() {
        let _read = *frame;
    }
    frames
}

/// Frames that are equal to these.
fn copy_frames(frames: &[i16], alloc: Global) -> Result<Frames, NoMemory>
    ensures { IfOk result (λ copy. copy ≡ frames.now) }
{
    let copy = Vec::from_slice(alloc, frames)?;
    Ok(Frames::from_vec(copy))
}

impl Edit {
    /// The kind of an edit.
    pub(crate) fn kind(&self) -> EditKind
        ensures { result ≡ (edit_parts self.now).kind }
    {
        edits!(kind_of(self))
    }

    /// The numbers of an edit, in order.
    fn numbers(&self) -> ArrayVec<i64, 11>
        ensures value { result.items ≡ (edit_parts self.now).numbers }
        ensures ranges { AreOfTypes (signature (edit_parts self.now).kind).numbers
            (edit_parts self.now).numbers }
    {
        edits!(numbers_in(self))
    }

    /// What an edit has behind its numbers: its name and its frames, each of them empty where it
    /// has none.
    fn last(&self) -> (&[u8], &[i16])
        ensures name { result.0.now ≡ (edit_parts self.now).name }
        ensures frames { result.1.now ≡ (edit_parts self.now).frames }
        ensures ranges { IsLastPart (signature (edit_parts self.now).kind).last
            (edit_parts self.now).name (edit_parts self.now).frames }
    {
        match self {
            Edit::Title { name } => (bytes_of(name), &[]),
            Edit::Insname { name, .. } => (bytes_of(name), &[]),
            Edit::Smpname { name, .. } => (bytes_of(name), &[]),
            Edit::Paste { frames, .. } => (&[], all_of(frames.as_slice())),
            _ => (&[], &[]),
        }
    }

    /// The parts of an edit.
    pub fn parts(&self) -> EditParts
        ensures kind { result.kind ≡ (edit_parts self.now).kind }
        ensures numbers { result.numbers.items ≡ (edit_parts self.now).numbers }
        ensures name { result.name.now ≡ (edit_parts self.now).name }
        ensures frames { result.frames.now ≡ (edit_parts self.now).frames }
        ensures ranges { EditHasRanges self.now }
    {
        let (name, frames) = self.last();
        EditParts {
            kind: self.kind(),
            numbers: self.numbers(),
            name,
            frames,
        }
    }

    /// The edit of these parts. A number that its type doesn't hold becomes 0, and a name is cut or
    /// filled with 0. Only a paste takes memory.
    pub fn from_parts(alloc: Global, parts: &EditParts) -> Result<Edit, NoMemory>
        ensures { IfOk result (λ edit. edit ≡ edit_of (record {
          kind = parts.now.kind;
          numbers = parts.now.numbers.items;
          name = parts.now.name.now;
          frames = parts.now.frames.now;
        })) }
    {
        let numbers = parts.numbers.as_slice();
        edits!(made(alloc parts numbers))
    }

    /// An equal edit.
    #[tactic(auto, using(crate::proofs::WholeEdits::is_whole))]
    pub fn copy(&self, alloc: Global) -> Result<Edit, NoMemory>
        ensures { IfOk result (λ edit. edit ≡ self.now) }
    {
        Edit::from_parts(alloc, &self.parts())
    }
}
