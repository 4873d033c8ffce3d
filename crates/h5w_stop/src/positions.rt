//! A journal's image at each position, and what readers find there.
ghost use Rattle.std.specs.Prelude.{◌≡◌, ◌+◌, ◌<◌, ◌≤◌, [], length, take, IfOk, OnOk};
ghost use Rattle.h5w_model.specs.Images.{image as image_of};
ghost use Rattle.h5w_stop.specs.Outcomes.{AreRuns, outcome_at};

use crate::image::Image;
use crate::outcome::find;
use crate::report::Report;
use crate::runs::Runs;
use h5w_image::Journal;
use h5w_model::{Bytes, OutOfMemory};
use std::alloc::Global;

/// Puts the next piece of the journal into the image of those before it.
fn show(journal: &Journal, position: u64, image: &mut Image) -> Result<(), OutOfMemory>
    requires piece { position < length journal.now.writes }
    requires before { image.old ≡ image_of [] (take position journal.now.writes) }
    ensures { OnOk result (image.new ≡ image_of [] (take (position + 1) journal.now.writes)) }
{
    match journal.get(position) {
        Some(write) => image.put(&write),
        None => unreachable!(),
    }
}

/// The bytes of the image at a position of the journal: behind so many of its pieces.
pub fn image_at(alloc: Global, journal: &Journal, position: u64) -> Result<Bytes, OutOfMemory>
    requires { position ≤ length journal.now.writes }
    ensures { IfOk result (λ bytes. bytes ≡ image_of [] (take position journal.now.writes)) }
{
    let mut image = Image::new(alloc);
    for k in 0..position {
        show(journal, k, &mut image)?;
    }
    Ok(image.into_bytes())
}

/// What the open of a dataset of this name finds at each position of the journal, from 0 to all pieces. Positions next to each other
/// with one outcome are one run. Each piece is put into one image, so it takes as long as so many opens.
pub fn sweep(alloc: Global, journal: &Journal, name: &[u8]) -> Result<Report, OutOfMemory>
    ensures { IfOk result (λ report. AreRuns (outcome_at journal.now.writes name.now) 0 (length journal.now.writes + 1) report) }
{
    let mut image = Image::new(alloc);
    let mut runs = Runs::new(alloc, find(alloc, &mut image, name)?);
    for position in 0..journal.len() {
        show(journal, position, &mut image)?;
        runs.add(position + 1, find(alloc, &mut image, name)?)?;
    }
    runs.finish()
}
