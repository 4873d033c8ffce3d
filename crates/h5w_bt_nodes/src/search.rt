//! The place of a key among the records of a node.

ghost use Rattle.std.specs.Prelude.{◌≡◌, ◌+◌, ◌≤◌, length, if◌then◌else◌, is_some, true, OnOk, OnErr};
ghost use Rattle.h5w_model.specs.Tables.{key_equal};
ghost use Rattle.h5w_bt_nodes.specs.Nodes.{rank, address_in};
ghost use Rattle.h5w_bt_nodes.specs.Puts.{put_record};

use h5w_bt::{Key, Record, is_below, is_same};
use h5w_model::OutOfMemory;

/// The address of the record, where it has the key.
fn address_at(item: &Record, key: Key) -> Option<u64>
    ensures { result ≡ (if key_equal item.now.key key then Some item.now.address else None) }
{
    if is_same(&item.key, &key) {
        Some(item.address)
    } else {
        None
    }
}

/// How many records stand before the first that is not below the key, and the address of that one where it has the key.
pub fn search(records: &[Record], key: Key) -> (usize, Option<u64>)
    ensures place { result.0 ≡ rank key records.now }
    ensures found { result.1 ≡ address_in key records.now }
    ensures inside { result.0 ≤ length records.now }
{
    for (i, item) in records.iter().enumerate() {
        if !is_below(&item.key, &key) {
            return (i, address_at(item, key));
        }
    }
    (records.len(), None)
}

/// Puts a record in the place of the one with its key. Takes no memory.
pub fn replace_record(records: &mut Vec<Record>, item: Record)
    requires there { is_some (address_in item.key records.old.items) ≡ true }
    ensures { records.new.items ≡ put_record item records.old.items }
{
    let (at, _) = search(records, item.key);
    records[at] = item;
}

/// Puts a record to its place among others: in the place of the one with its key, or between those below it and those above.
pub fn put_record(records: &mut Vec<Record>, item: Record) -> Result<(), OutOfMemory>
    ensures ok { OnOk result (records.new.items ≡ put_record item records.old.items) }
    ensures err { OnErr result (records.new.items ≡ records.old.items) }
{
    let (at, there) = search(records, item.key);
    if there.is_some() {
        records[at] = item;
    } else {
        records.insert(at, item)?;
    }
    Ok(())
}
