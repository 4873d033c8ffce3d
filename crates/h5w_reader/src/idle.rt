//! A header that is as it was when the dataset was last looked at.
ghost use Rattle.std.specs.Prelude.{◌≡◌, true};
ghost use Rattle.h5w_model.specs.Headers.{header_view};
ghost use Rattle.h5w_lookup.specs.Attempts.{known_of, rules_of};
ghost use Rattle.h5w_reader.specs.Idle.{IsIdle};

use h5w_lookup::{Known, Rules};
use h5w_model::{Bytes, PIECE, Piece};
use h5w_ohdr::prefix;

/// Whether these bytes are all that counts of a look at a header.
fn shows(look: &Piece, seen: &Bytes) -> bool
    ensures { result ≡ true → header_view look.now ≡ seen.now }
{
    let b = look.as_slice();
    match prefix(b) {
        Ok(p) if p.total <= PIECE as u64 => {
            let counts = (p.total as usize).min(b.len());
            &b[..counts] == seen.as_slice()
        }
        _ => false,
    }
}

/// Whether this look at the header shows what is known, and all needed addresses are known.
pub fn is_idle(rules: &Rules, known: &Option<Known>, look: &Piece) -> bool
    ensures { result ≡ true → IsIdle (rules_of rules.now (known_of known.now)) (header_view look.now) }
{
    let Some(known) = known else {
        return false;
    };
    let Some(seen) = &known.view else {
        return false;
    };
    if known.place != rules.place {
        return false;
    }
    if !shows(look, seen) {
        return false;
    }
    let needed = known.dataset.needed();
    if u128::from(known.dataset.limit()) < needed {
        return false;
    }
    if needed != known.table.len() as u128 {
        return false;
    }
    known.absent.len() == 0
}
