//! The plan of an array's changed blocks.

ghost use Rattle.std.specs.Prelude.{◌≡◌, length};
ghost use Rattle.h5w_space.specs.Space.{Space};
ghost use Rattle.h5w_cache.specs.Starts.{IsBegun, WasBegun, copy_pieces, in_place_pieces};
ghost use Rattle.h5w_array_laws.specs.ArrayStores.{IsArray, IsNumbered};
ghost use Rattle.h5w_array_laws.specs.ArrayPlans.{IsArrayPlan};

use h5w_cache::{BlockFlush, Cache, Plan};

/// The writes of all changed blocks, those in place last, of a plan that was begun of this store.
pub fn finish(cache: &mut Cache, begun: BlockFlush) -> Plan
    requires array { IsArray cache.old }
    requires begun { WasBegun cache.old.blocks cache.old.places cache.old.changed begun }
    ensures planned { (s t : Space) → IsBegun cache.old.blocks cache.old.places cache.old.changed s begun t
        → IsArrayPlan cache.old s result.moves.items result.copies.items result.in_place.items cache.new t }
    ensures array { IsArray cache.new }
    ensures numbered { IsNumbered cache.old → IsNumbered cache.new }
    ensures moves { result.moves.items ≡ begun.moves }
    ensures copies { length result.copies.items ≡ copy_pieces begun }
    ensures in_place { length result.in_place.items ≡ in_place_pieces begun }
{
    cache.finish(begun)
}
