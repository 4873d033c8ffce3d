//! What comes behind the messages of a dataset header.
ghost use Rattle.std.specs.Prelude.{◌≡◌, IfOk};
ghost use Rattle.h5w_dataset.specs.Founds.{founds};
ghost use Rattle.h5w_lookup.specs.Attempts.{known_of, looked_up, described_rest, rules_of};

use crate::known::{Known, Rules};
use crate::lookup::{LookedUp, Lookup};
use crate::outcome::Outcome;
use crate::recall::rows_seen;
use h5w_dataset::{FoundMessage, describe};
use h5w_model::{OutOfMemory, ReadError};
use std::alloc::Global;

/// Goes on from the messages of the dataset header: first what is unsupported, then fewer rows than were seen, then too many
/// chunks.
pub fn settle(
    alloc: Global,
    rules: &Rules,
    known: &Option<Known>,
    found: &[FoundMessage],
) -> Result<LookedUp, OutOfMemory>
    ensures { IfOk result (λ l. looked_up (rules_of rules.now (known_of known.now)) l ≡ described_rest (rules_of rules.now (known_of known.now)) (founds found.now)) }
{
    let d = match describe(found) {
        Ok(d) => d,
        Err(n) => return Ok(Outcome::Refused(ReadError::Unsupported(n))),
    };
    let (seen, rows) = (rows_seen(known), d.shape.rows);
    if rows < seen {
        return Ok(Outcome::Refused(ReadError::Shrunk { seen, found: rows }));
    }
    let (needed, limit) = (d.needed(), d.limit());
    if u128::from(limit) < needed {
        return Ok(Outcome::Refused(ReadError::TooManyChunks { needed, limit }));
    }
    Lookup::begin(alloc, rules, known, &d)
}
