//! What is refused of a header, as a finding.
ghost use Rattle.std.specs.Prelude.{◌≡◌};
ghost use Rattle.h5w_model.specs.Findings.{found};
ghost use Rattle.h5w_check.specs.Headers.{error_for};

use crate::error::CheckError;
use h5w_headers::FindError;

/// The finding that stands for any refusal of what is looked for.
pub fn finding(error: &FindError, kind: u8, at: u64) -> CheckError
    ensures { result ≡ error_for (λ _. found kind at) error.now }
{
    match error {
        FindError::Refused(_) => CheckError::Finding { kind, at },
        FindError::Failed => CheckError::Failed,
        FindError::OutOfMemory => CheckError::OutOfMemory,
    }
}
