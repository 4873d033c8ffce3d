/// A superblock's fields (HDF5 File Format Specification 3.0, "Format Signature and Superblock").
#[derive(Clone, Copy, Debug, PartialEq, Eq)]
pub struct Super {
    pub version: u8,
    /// Bit 0: open for writing. Bit 2: open for SWMR writing. Other bits are kept.
    pub flags: u8,
    /// The end-of-file address: the first byte after all that the file uses.
    pub end: u64,
    /// The address of the root group's object header.
    pub root: u64,
}
