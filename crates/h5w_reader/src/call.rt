//! An unfinished call.
use crate::stage::Stage;
use crate::values::Reads;

/// An unfinished call.
#[derive(Drop)]
pub enum Call {
    /// An open or a refresh.
    Rows(Stage),
    /// A read.
    Values(Reads),
}
