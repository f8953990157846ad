//! The updates that take records back, and those that make them again.
ghost use Rattle.std.specs.Prelude.{◌≡◌, ◌++◌, IfOk, OnOk, map};
ghost use Rattle.ec_axioms.specs.Events.{plain_update};
ghost use Rattle.ec_past.specs.Logged.{plain_record, plain_records};
ghost use Rattle.ec_past.specs.Records.{redo_of, undo_of, undos_of};

use crate::log_record::{LogRecord, copied_event};
use ec_axioms::Update;
use ec_lists::NoMemory;
use ec_moment::Moment;
use std::alloc::Global;

/// The update that takes a record back. `Err`: memory ran out.
fn undo_of<T: Moment>(alloc: Global, made: &LogRecord<T>) -> Result<Update<T>, NoMemory>
    ensures { IfOk result (λ update. plain_update T.rank update ≡ undo_of (plain_record T.rank made.now)) }
{
    match made {
        LogRecord::Added(event) => Ok(Update::Retract(event.id.copied())),
        LogRecord::Removed(event) => Ok(Update::Assert(copied_event(alloc, event)?)),
    }
}

/// The update that makes a record again. `Err`: memory ran out.
fn redo_of<T: Moment>(alloc: Global, made: &LogRecord<T>) -> Result<Update<T>, NoMemory>
    ensures { IfOk result (λ update. plain_update T.rank update ≡ redo_of (plain_record T.rank made.now)) }
{
    match made {
        LogRecord::Added(event) => Ok(Update::Assert(copied_event(alloc, event)?)),
        LogRecord::Removed(event) => Ok(Update::Retract(event.id.copied())),
    }
}

/// Adds the updates that take records back, the latest first. `Err`: memory ran out.
pub(crate) fn push_undos<T: Moment>(
    alloc: Global,
    way: &mut Vec<Update<T>>,
    records: &[LogRecord<T>],
) -> Result<(), NoMemory>
    ensures { OnOk result (map (plain_update T.rank) way.new.items ≡ map (plain_update T.rank) way.old.items ++ undos_of (plain_records T.rank records.now)) }
{
    let mut place = records.len();
    while 0 < place {
        place -= 1;
        let update = undo_of(alloc, &records[place])?;
        way.push(update)?;
    }
    Ok(())
}

/// Adds the updates that make records again. `Err`: memory ran out.
pub(crate) fn push_redos<T: Moment>(
    alloc: Global,
    way: &mut Vec<Update<T>>,
    records: &[LogRecord<T>],
) -> Result<(), NoMemory>
    ensures { OnOk result (map (plain_update T.rank) way.new.items ≡ map (plain_update T.rank) way.old.items ++ map redo_of (plain_records T.rank records.now)) }
{
    for record in records {
        let update = redo_of(alloc, record)?;
        way.push(update)?;
    }
    Ok(())
}
