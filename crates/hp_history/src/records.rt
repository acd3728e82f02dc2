//! Records of a history. In contracts, their value is a list.
ghost use Rattle.std.specs.Prelude.{◌≡◌, IfOk};

use hp_units::Record;
use std::alloc::{AllocError, Global};
use std::marker::Model;
use std::mem::size_of;

/// The size of a record decides the cost of a history.
const _: () = prove!(size_of::<Record>() <= 56);

/// Records of a history, oldest first.
#[derive(Drop)]
pub struct Records {
    records: Vec<Record>,
}

impl Model for Records {
    ghost use Rattle.std.specs.Prelude.{List};
    ghost use Rattle.hp_units.specs.declared.replies.Record.{Record};

    ghost Value = { List Record };

    ghost view = { λ r. r.records.items };
}

impl Records {
    /// Wraps records without copying them.
    pub fn new(records: Vec<Record>) -> Self
        ensures { result ≡ records.items }
    {
        Records { records }
    }

    /// Returns the records in order.
    pub fn as_slice(&self) -> &[Record]
        ensures { result.now ≡ self.now }
    {
        self.records.as_slice()
    }

    /// Returns the records as a vector, without copying them.
    pub fn into_vec(self) -> Vec<Record>
        ensures { result.items ≡ self }
    {
        let Records { records } = self;
        records
    }
}

/// Returns a copy of the records.
pub(crate) fn copy_records(alloc: Global, records: &[Record]) -> Result<Vec<Record>, AllocError>
    ensures { IfOk result (λ copy. copy.items ≡ records.now) }
{
    let mut copy = Vec::new(alloc);
    for record in records {
        copy.push(copy_record(alloc, record)?)?;
    }
    Ok(copy)
}

/// Returns a copy of a record.
fn copy_record(alloc: Global, original: &Record) -> Result<Record, AllocError>
    ensures { IfOk result (λ copy. copy ≡ original.now) }
{
    let event = original.event.copy(alloc)?;
    Ok(Record {
        serial: original.serial,
        cpu: original.cpu,
        event,
        reply: original.reply,
    })
}
