ghost use Rattle.std.specs.Prelude.{◌≡◌, []};
ghost use Rattle.h5w_model.specs.Checksum.{sum_of};
ghost use Rattle.h5w_model.specs.ChecksumVectors.{four_score, superblock_body};

/// What other implementations of lookup3 answer, of the definition: for no bytes, for the text of
/// lookup3's own self-test, and for a superblock's 44 bytes. Does nothing.
pub fn checksum_vectors()
    ensures nothing { sum_of [] ≡ 0xdead_beef }
    ensures text { sum_of four_score ≡ 0x1777_0551 }
    ensures superblock { sum_of superblock_body ≡ 0xd178_0304 }
{}
