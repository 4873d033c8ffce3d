//! How many looks the check takes.

use crate::files::{LEAF_OFTEN, NODE_OFTEN, SHARED_OFTEN};
use crate::packed::unpacked;
use h5w_check::{CheckError, check};
use h5w_image::MemImage;
use h5w_model::OutOfMemory;
use h5w_names::Names;
use std::alloc::Global;
use std::test::Fail;

/// Why the check does not find a file valid whose k-th look fails.
fn fault(alloc: Global, packed: &[u8], k: u64) -> Result<Option<CheckError>, OutOfMemory> {
    let bytes = unpacked(alloc, packed)?;
    let mut image = MemImage::with_faults(alloc, &bytes, &[k])?;
    let size = image.len();
    let names = Names::of(alloc, b"data")?;
    Ok(check(alloc, &mut image, size, &names).err())
}

#[test]
fn a_node_that_is_known_is_not_looked_at_where_keys_fell(rt: HostRuntime) -> Result<(), Fail> {
    let fell = Some(CheckError::Finding { kind: 16, at: 338 });
    // the files, and how many looks are taken at each: the last one fails, and the one behind it, which is not taken
    let rows: [(&[u8], u64); 3] = [(&LEAF_OFTEN, 7), (&NODE_OFTEN, 9), (&SHARED_OFTEN, 10)];
    for (packed, looks) in rows {
        let found = (
            fault(rt.alloc(), packed, looks)?,
            fault(rt.alloc(), packed, looks + 1)?,
        );
        assert_eq!(rt; found, (Some(CheckError::Failed), fell));
    }
    Ok(())
}
