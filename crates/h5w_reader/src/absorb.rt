//! A piece behind which a block, or a chunk's range, goes on.
ghost use Rattle.std.specs.Prelude.{◌≡◌, ◌≢◌, ℕ, List, Option, Ok, Some, None, true, false, option_map};
ghost use Rattle.h5w_model.specs.Unfinished.{fed_left};
ghost use Rattle.h5w_reader.specs.Readers.{left_of};
ghost use Rattle.h5w_reader.specs.declared.call.Call.TheVariants as calls;
ghost use Rattle.h5w_lookup.specs.declared.known.Known.{Known};
ghost use Rattle.h5w_reader.specs.declared.values.Reads.{Reads};

use crate::call::Call;
use h5w_model::{OutOfMemory, Piece};

/// Takes up a full piece where the block or the range that is looked at goes on behind it; false where the piece may be its
/// last, or something else is looked at.
pub fn absorb(call: &mut Option<Call>, piece: &Piece) -> Result<bool, OutOfMemory>
    ensures more { result ≡ Ok true → (most : ℕ) (name : List ℕ) (known : Option Known) → left_of most name known call.new ≡ option_map (fed_left piece.now) (left_of most name known call.old) }
    ensures there { result ≡ Ok true → call.new ≢ None }
    ensures same { result ≡ Ok false → (most : ℕ) (name : List ℕ) (known : Option Known) → left_of most name known call.new ≡ left_of most name known call.old }
    ensures values { (reads : Reads) → call.new ≡ Some (calls.Values reads) → (before : Reads) × (call.old ≡ Some (calls.Values before)) }
{
    match call {
        Some(Call::Rows(stage)) => stage.absorb(piece),
        Some(Call::Values(reads)) => reads.absorb(piece),
        None => Ok(false),
    }
}
