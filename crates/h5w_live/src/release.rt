//! What a run lets go, each kind in one place. A session, what writes an image, and a second image have many parts, and each place that lets
//! them go is dear to prove.

use crate::following::Second;
use crate::threads::Beside;
use h5w_live_reading::{AllEnded, Cut};
use h5w_pen::Pen;
use h5w_shared::SharedImage;
use h5w_writer::WriterCore;

/// Lets a session go.
pub fn release_session(_session: WriterCore) {}

/// Lets go what writes an image.
pub fn release_pen(_seat: Pen) {}

/// Lets an image go.
pub fn release_image(_image: SharedImage) {}

/// Lets a second image go, if there is one.
pub fn release_second(_second: Option<Second>) {}

/// Lets go what came of readers.
pub fn release_ended(_ended: Result<AllEnded, Cut>) {}

/// Lets go what a second image left, if there is one.
pub fn release_beside(_beside: Option<Beside>) {}
