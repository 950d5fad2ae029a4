//! The records of a CSV text.

ghost use Rattle.std.specs.Prelude.{IfOk, map};
ghost use Rattle.csv.specs.Reading.{AreRecords, default_config, strip_bom};
ghost use Rattle.csv.specs.Records.{fields_of};
ghost use Rattle.csv.specs.declared.parser.State.TheVariants as st;

use csv::{ByteRecord, Error, ReaderBuilder};
use ct_base::Memory;
use std::alloc::Global;

fn all_records(alloc: Global, text: &[u8]) -> Result<Vec<ByteRecord>, Error>
    ensures { IfOk result (λ v. AreRecords default_config st.StartRecord (strip_bom text.now) (map fields_of v.items)) }
{
    let rdr = ReaderBuilder::new()
        .has_headers(false)
        .flexible(true)
        .from_reader(alloc, text);
    let mut rows = Vec::new(alloc);
    for row in rdr.into_byte_records() {
        if rows.push(row?).is_err() {
            return Err(Error::out_of_memory());
        }
    }
    Ok(rows)
}

/// The records of a CSV text, the header too, each with as many fields as it has. A text in memory is read whole unless memory is
/// wanting.
pub(crate) fn records(alloc: Global, text: &[u8]) -> Result<Vec<ByteRecord>, Memory>
    ensures { IfOk result (λ v. AreRecords default_config st.StartRecord (strip_bom text.now) (map fields_of v.items)) }
{
    match all_records(alloc, text) {
        Ok(records) => Ok(records),
        Err(_) => Err(Memory),
    }
}
