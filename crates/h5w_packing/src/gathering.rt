//! What is planned of a packed file, put together.
ghost use Rattle.std.specs.Prelude.{◌≡◌, ◌≤◌, ◌++◌, length, IfOk, OnOk};
ghost use Rattle.std.specs.List.{All};
ghost use Rattle.h5w_model.specs.Headers.{msgs_bytes};
ghost use Rattle.h5w_packing.specs.Jobs.{EndsLow};
ghost use Rattle.h5w_packing.specs.SoFar.{IsPlanOf, behind_writes};

use crate::job::Copied;
use crate::packing::Packing;
use crate::ranges::Ranges;
use crate::writing::{put_root, superblock_write};
use h5w_model::{OutOfMemory, Write};
use h5w_ohdr::Msgs;

/// What is planned so far of a packed file, of one dataset after another.
#[derive(Drop)]
pub struct Planning {
    /// Where the next dataset header stands.
    pub place: u64,
    /// Where the next chunk stands.
    pub end: u64,
    /// The messages of the root header.
    pub links: Msgs,
    pub chunks: Vec<Copied>,
    /// The pieces of the indexes' blocks at new places.
    pub copies: Vec<Write>,
    /// Those of the indexes' blocks in place.
    pub tops: Vec<Write>,
    /// Those of the dataset headers.
    pub headers: Vec<Write>,
    /// The ranges before all chunks.
    pub fronts: Ranges,
    /// The ranges of chunks, and of the blocks behind them.
    pub behinds: Ranges,
}

/// Puts all that is written behind the chunks into one list.
fn gather(so_far: &mut Planning) -> Result<(), OutOfMemory>
    requires { length (msgs_bytes so_far.old.links) ≤ 2188 }
    ensures writes { OnOk result (so_far.new.copies.items ≡ so_far.old.copies.items ++ behind_writes so_far.old) }
    ensures chunks { so_far.new.chunks ≡ so_far.old.chunks }
    ensures fronts { so_far.new.fronts ≡ so_far.old.fronts }
    ensures behinds { so_far.new.behinds ≡ so_far.old.behinds }
    ensures end { so_far.new.end ≡ so_far.old.end }
{
    put_root(&so_far.links, &mut so_far.headers)?;
    so_far.headers.push(superblock_write(so_far.end))?;
    so_far.tops.append(&mut so_far.headers)?;
    so_far.copies.append(&mut so_far.tops)?;
    Ok(())
}

/// The plan of a file of which all datasets are planned.
pub fn finished(mut so_far: Planning) -> Result<Packing, OutOfMemory>
    requires low { All EndsLow so_far.chunks.items }
    requires links { length (msgs_bytes so_far.links) ≤ 2188 }
    ensures { IfOk result (IsPlanOf so_far) }
{
    gather(&mut so_far)?;
    so_far.fronts.append(&mut so_far.behinds)?;
    let Planning {
        end,
        chunks,
        copies,
        fronts,
        ..
    } = so_far;
    Packing::new(chunks, copies, fronts, end)
}
