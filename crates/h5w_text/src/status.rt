ghost use Rattle.std.specs.Prelude.{◌≡◌};
ghost use Rattle.h5w_text.specs.Statuses.{number_of};

/// How a run ended.
#[derive(Clone, Copy, Debug, PartialEq, Eq)]
pub enum Status {
    /// All was done that was asked.
    Done,
    /// The words are outside the command set.
    Usage,
    /// No file has the name.
    Missing,
    /// Something has the name of the file that was to be made.
    Exists,
    /// The file is no HDF5 file, or outside the part of the format that is read.
    Format,
    /// The file is damaged.
    Damaged,
    /// One of the superblock's flags of writers is set without the other.
    Flags,
    /// The dataset header changed in each attempt.
    Again,
    /// A line of the input is outside the grammar, or the input has too many bytes.
    Input,
    /// A limit is passed.
    Limit,
    /// The disk failed, or the image that threads share.
    Disk,
    /// The source failed.
    Source,
    /// The sink failed.
    Sink,
    /// Memory was refused.
    Memory,
}

impl Status {
    /// The number with which the program ends.
    pub fn number(self) -> u8
        ensures { result ≡ number_of self }
    {
        match self {
            Status::Done => 0,
            Status::Usage => 2,
            Status::Missing | Status::Exists => 3,
            Status::Format => 4,
            Status::Damaged => 5,
            Status::Flags => 6,
            Status::Again => 7,
            Status::Input => 8,
            Status::Limit => 9,
            Status::Disk => 10,
            Status::Source => 11,
            Status::Sink => 12,
            Status::Memory => 13,
        }
    }
}
