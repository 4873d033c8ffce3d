//! Messages that are to be visited next.
ghost use Rattle.std.specs.Prelude.{◌≡◌, ◌+◌, ◌≤◌, ◌^◌, ◌++◌, length, ℕ, OnOk};
ghost use Rattle.std.specs.List.{All};
ghost use Rattle.h5w_model.specs.Datasets.{found_at};
ghost use Rattle.h5w_dataset.specs.Founds.{stack};
ghost use Rattle.h5w_dataset.specs.Listed.{IsInside};

use crate::found::FoundMessage;
use h5w_model::OutOfMemory;
use h5w_ohdr::Msgs;

/// Puts the messages of a header or block at `place`, of which `got` bytes were found, before those that come next.
pub fn put_before(
    next: &mut Vec<FoundMessage>,
    msgs: Msgs,
    place: u64,
    got: usize,
    in_chunk_0: bool,
) -> Result<(), OutOfMemory>
    requires listed { All (IsInside got) msgs }
    requires inside { place + got ≤ 2 ^ 64 }
    ensures { OnOk result (stack next.new.items ≡ found_at place in_chunk_0 msgs ++ stack next.old.items) }
{
    let mut list = msgs.into_vec();
    while let Some(m) = list.pop() {
        next.push(FoundMessage {
            kind: m.kind,
            flags: m.flags,
            place: place + m.at,
            body: m.body,
            in_chunk_0,
        })?;
    }
    Ok(())
}
