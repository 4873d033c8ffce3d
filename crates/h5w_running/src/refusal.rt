use h5w_shared::Worn;
use h5w_text::ErrorLine;

/// Why a run in threads does not report.
#[derive(Drop)]
pub enum Refusal {
    /// Any error but that of a failed image.
    Error(ErrorLine),
    /// A seat at the shared image was shown the ticket word at 2^63.
    Image(Worn),
}
