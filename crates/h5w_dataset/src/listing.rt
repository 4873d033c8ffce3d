//! Messages as links are read from them.
ghost use Rattle.std.specs.Prelude.{◌≡◌, map, IfOk};
ghost use Rattle.h5w_dataset.specs.Founds.{founds, listed};

use crate::found::FoundMessage;
use h5w_model::{Msg, OutOfMemory};
use h5w_ohdr::Msgs;
use std::alloc::Global;

/// The messages as links are read from them, each with its place in the image.
#[tactic(auto, using(crate::proofs::LinkLemmas::listed_founds))]
pub fn listed(alloc: Global, found: Vec<FoundMessage>) -> Result<Msgs, OutOfMemory>
    ensures { IfOk result (λ msgs. msgs ≡ map listed (founds found.items)) }
{
    let msgs: Vec<Msg> = found
        .into_iter()
        .map(|m| Msg {
            kind: m.kind,
            flags: m.flags,
            at: m.place,
            body: m.body,
        })
        .collect(alloc)?;
    Ok(Msgs::from_vec(msgs))
}
