//! Ranges of an image that follow one another without a gap.

ghost use Rattle.h5w_laws.specs.Tiles.{TileLaws};

/// Tiles of an image are all of it, do not meet, and end by its end.
pub fn tile_laws()
    ensures { TileLaws }
{}
