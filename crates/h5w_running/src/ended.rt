ghost use Rattle.std.specs.Prelude.{◌≡◌};
ghost use Rattle.h5w_running.specs.Ends.{ended_number};

use h5w_shared::Worn;
use h5w_text::{ErrorLine, Status};

/// How a job ended, that of the program or one in threads.
#[derive(Drop)]
pub enum Ended {
    /// With a status.
    With(Status),
    /// The shared image failed: a seat was shown the ticket word at 2^63, which this keeps.
    Image(Worn),
}

impl Ended {
    /// The number with which the program ends.
    pub fn number(&self) -> u8
        ensures { result ≡ ended_number self.now }
    {
        match self {
            Ended::With(status) => status.number(),
            Ended::Image(_) => ErrorLine::Image.status().number(),
        }
    }
}
