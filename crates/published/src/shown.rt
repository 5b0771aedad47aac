//! The two copies that readers see: how a configuration is shown, and how it is looked at.
ghost use Rattle.std.specs.Prelude.{◌≡◌, ◌≢◌, ◌<◌, ◌+◌, ◌^◌, [], ◌∷◌, ◌++◌, true, IfOk, OnOk, OnErr, IfSome, length};
ghost use Rattle.std.specs.Arc.{arc_value};
ghost use Rattle.left_right.specs.Sides.{view};
ghost use Rattle.published.specs.Lists.{IsPrefixOf, IsAt};
ghost use Rattle.published.specs.Rules.{ShowsLast, Begins, Extends, Sees, reader_of, owner_of};

use crate::knows::Knows;
use atomic_table::{Join, Split};
use conf_types::Config;
use crossbeam_utils::rule::{Outcome, Protocol};
use generation::Snap;
use left_right::{Absorb, reader, writer};
use std::alloc::{AllocError, Global};
use std::sync::{Arc, Wait};

/// A copy of what is shown.
#[derive(Drop)]
pub struct Shown {
    pub snap: Snap,
}

/// One that is published takes the place of what was there. So one that was refused before leaves no trace.
impl Absorb<Shown> for Shown {
    type State = (u64, Config);

    ghost state = { λ shown. (shown.snap.number, arc_value shown.snap.config) };

    ghost applied = { λ state operation. (operation.snap.number, arc_value operation.snap.config) };

    fn absorb_first(&mut self, operation: &Shown, _other: &Shown) -> Result<(), AllocError> {
        match operation.snap.share() {
            Ok(snap) => {
                *self = Shown { snap };
                Ok(())
            }
            Err(_) => Err(AllocError),
        }
    }

    fn absorb_second(&mut self, operation: Shown, _other: &Shown) -> Result<(), Shown> {
        *self = operation;
        Ok(())
    }
}

/// What is shown is the last of the published list.
pub struct ShowsPublished;

impl Protocol<Shown, Knows> for ShowsPublished {
    ghost holds = { λ shown. ShowsLast shown.snap.number (arc_value shown.snap.config) };

    ghost first = { reader_of [] };
}

pub type ShownWriter = writer::Writer<Shown, Shown, Knows, ShowsPublished>;

pub type ShownReader = reader::Reader<Shown, Knows, ShowsPublished>;

struct Begun;

impl Outcome<Shown, Knows> for Begun {
    ghost then = { λ before found shown after. Begins (arc_value shown.snap.config) after };
}

struct Extended;

impl Outcome<Shown, Knows> for Extended {
    ghost then = { λ before found shown after. Extends before (arc_value shown.snap.config) after };
}

struct Seen;

impl Outcome<Shown, Knows> for Seen {
    ghost then = { λ before found shown after. Sees before found.snap.number (arc_value found.snap.config) after };
}

struct Tells;

impl Split<Knows> for Tells {
    ghost left = { λ knows. knows };

    ghost right = { λ knows. reader_of knows.configs };
}

struct Learns;

impl Join<Knows> for Learns {
    ghost both = { λ mine theirs. reader_of theirs.configs };

    ghost spent = { reader_of [] };
}

/// Nothing is shown yet: the number is 0, which no reader sees.
fn unbegun(alloc: Global, first: &Snap, readers: u32) -> Result<ShownWriter, AllocError>
    requires { 0 < readers }
    ensures number { IfOk result (λ writer. writer.desk.shown.value.snap.number ≡ 0) }
    ensures knows { IfOk result (λ writer. view writer.desk.place ≡ reader_of []) }
{
    let one = Snap {
        number: 0,
        config: Arc::try_clone(&first.config)?,
    };
    let other = Snap {
        number: 0,
        config: Arc::try_clone(&first.config)?,
    };
    writer::Writer::new(
        alloc,
        Shown { snap: one },
        Shown { snap: other },
        readers as usize,
    )
}

/// Shows the first configuration.
fn begin<R: Wait>(
    rt: &R,
    mut writer: ShownWriter,
    first: Snap,
) -> (ShownWriter, Result<(), AllocError>)
    requires number { first.number ≡ 1 }
    requires unbegun { writer.desk.shown.value.snap.number ≡ 0 }
    ensures knows { OnOk result.1 (view result.0.desk.place ≡ owner_of (arc_value first.config ∷ [])) }
    ensures number { OnOk result.1 (result.0.desk.shown.value.snap.number ≡ 1) }
{
    let Ok(()) = writer.append(Shown { snap: first }) else {
        return (writer, Err(AllocError));
    };
    writer.publish_as::<Begun, R>(rt)
}

/// What shows the first configuration to so many readers.
pub fn open<R: Wait>(
    rt: &R,
    alloc: Global,
    first: Snap,
    readers: u32,
) -> Result<ShownWriter, AllocError>
    requires readers { 0 < readers }
    requires number { first.number ≡ 1 }
    ensures knows { IfOk result (λ writer. view writer.desk.place ≡ owner_of (arc_value first.config ∷ [])) }
    ensures number { IfOk result (λ writer. writer.desk.shown.value.snap.number ≡ 1) }
{
    let writer = unbegun(alloc, &first, readers)?;
    let (writer, done) = begin(rt, writer, first);
    match done {
        Ok(()) => Ok(writer),
        Err(refused) => {
            drop(writer.take(rt));
            Err(refused)
        }
    }
}

/// Shows a configuration in place of the last. Where it is refused, readers see what they saw.
pub fn show<R: Wait>(
    rt: &R,
    mut writer: ShownWriter,
    snap: Snap,
) -> (ShownWriter, Result<(), AllocError>)
    requires number { snap.number ≡ writer.desk.shown.value.snap.number + 1 }
    requires owner { (view writer.desk.place).extends ≡ true }
    ensures knows { OnOk result.1 (view result.0.desk.place ≡ owner_of ((view writer.desk.place).configs ++ arc_value snap.config ∷ [])) }
    ensures number { OnOk result.1 (result.0.desk.shown.value.snap.number ≡ snap.number) }
    ensures same { OnErr result.1 ((view result.0.desk.place ≡ view writer.desk.place) × (result.0.desk.shown.value ≡ writer.desk.shown.value)) }
{
    let Ok(()) = writer.append(Shown { snap }) else {
        return (writer, Err(AllocError));
    };
    writer.publish_as::<Extended, R>(rt)
}

/// A reader that knows what is shown.
pub fn reader(writer: &mut ShownWriter) -> Result<ShownReader, AllocError>
    ensures reader { IfOk result (λ reader. view reader.place ≡ reader_of (view writer.old.desk.place).configs) }
    ensures writer { (view writer.new.desk.place ≡ view writer.old.desk.place) × (writer.new.desk.shown.value.snap.number ≡ writer.old.desk.shown.value.snap.number) }
{
    let mut reader = writer.factory().reader()?;
    reader.learn::<Learns>(writer.tell::<Tells>());
    Ok(reader)
}

/// Looks once at what is shown, and shares it. Nothing comes where the look or the sharing is refused.
pub fn look(reader: ShownReader) -> (ShownReader, Option<Snap>)
    requires { 0 < length (view reader.place).configs }
    ensures grown { IsPrefixOf (view reader.place).configs (view result.0.place).configs }
    ensures seen { IfSome result.1 (λ snap. IsAt (view result.0.place).configs snap.number (arc_value snap.config)) }
{
    match reader.enter_as::<Seen>() {
        Ok(reading) => {
            let snap = reading.get().snap.share().ok();
            (reading.leave(), snap)
        }
        Err(reader) => (reader, None),
    }
}
