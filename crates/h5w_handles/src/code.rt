//! What a call answers.
ghost use Rattle.std.specs.Prelude.{◌≡◌};
ghost use Rattle.h5w_handles.specs.Codes.{number_of, told};

/// What a call answers, beside the two numbers of [`H5wTold`].
#[derive(Clone, Copy)]
pub enum H5wCode {
    /// The call is answered.
    Done,
    /// The reader's call wants a look.
    More,
    /// The values of a read are there: so many.
    Values,
    /// The header changed in each of so many attempts, last at this place.
    Again,
    /// So many rows are found, which are fewer than were seen.
    Shrunk,
    /// The file is none that is read, of this kind, with a number.
    Refused,
    Memory,
    /// A call is unfinished, so many pieces are pending, or the handle is open.
    Busy,
    /// Rows that were not seen, of so many; or no whole rows of so many columns.
    Rows,
    /// The handle holds nothing that has the call, a number is out of its bounds, or no look or piece is due.
    Misuse,
    /// The session was stopped or closed.
    Stopped,
    /// The value of this index is outside the type.
    Range,
    /// More than so many chunks.
    Chunks,
    /// There is no place, of this kind, with a number.
    Full,
    /// The file is none to append to, of this kind, with a number.
    Opened,
}

/// What a call answers, as C has it: the number of a code, and two numbers.
#[repr(C)]
#[derive(Clone, Copy)]
pub struct H5wTold {
    pub code: u32,
    pub detail: u32,
    pub count: u64,
}

/// Where a look or a piece is, as C has it, and how many bytes it has.
#[repr(C)]
#[derive(Clone, Copy)]
pub struct H5wPlace {
    pub at: u64,
    pub len: u64,
}

impl H5wCode {
    /// Its number.
    fn number(self) -> u32
        ensures { result ≡ number_of self }
    {
        match self {
            H5wCode::Done => 0,
            H5wCode::More => 1,
            H5wCode::Values => 2,
            H5wCode::Again => 3,
            H5wCode::Shrunk => 4,
            H5wCode::Refused => 5,
            H5wCode::Memory => 6,
            H5wCode::Busy => 7,
            H5wCode::Rows => 8,
            H5wCode::Misuse => 9,
            H5wCode::Stopped => 10,
            H5wCode::Range => 11,
            H5wCode::Chunks => 12,
            H5wCode::Full => 13,
            H5wCode::Opened => 14,
        }
    }

    /// It, with two numbers.
    pub fn with(self, detail: u32, count: u64) -> H5wTold
        ensures { result ≡ told self detail count }
    {
        H5wTold {
            code: self.number(),
            detail,
            count,
        }
    }

    /// It alone.
    pub fn alone(self) -> H5wTold
        ensures { result ≡ told self 0 0 }
    {
        self.with(0, 0)
    }
}
