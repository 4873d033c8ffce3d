//! No file before its superblock.

ghost use Rattle.h5w_creation_laws.specs.Born.{Born, CreatedBorn};

/// Writes behind the first eight bytes make no HDF5 file of none.
pub fn born()
    ensures { Born }
{}

/// As long as a piece of a creation is pending, no reader finds a file.
pub fn created_born()
    ensures { CreatedBorn }
{}
