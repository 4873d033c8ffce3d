//! What a packed file is.
ghost use Rattle.h5w_packing.specs.Whole.{PackedWhole};

/// Once all pieces of a plan are written, the file reads by each name as its source does, is valid for all of them, and has no lost bytes.
pub fn packed_whole()
    ensures { PackedWhole }
{}
