//! A file that is created in memory and shared: its session, what writes it, and maybe a second image that follows it.
ghost use Rattle.std.specs.Prelude.{◌≡◌, ℕ, ◌<◌, [], IfNone, IfOk, IfSome, OnOk, Err};
ghost use Rattle.h5w_options.specs.Options.{AreOptions};
ghost use Rattle.h5w_creation_laws.specs.CreatedFiles.{CreatedFile};
ghost use Rattle.h5w_replica.specs.Batches.{AreShort};
ghost use Rattle.h5w_creation.specs.NewFiles.{new_file};
ghost use Rattle.h5w_shared.specs.Seats.{note_of};
ghost use Rattle.h5w_live.specs.Seconds.{IsSecondOf};
ghost use Rattle.h5w_live.specs.Writing.{HasFlushed, IsCreating};

use crate::following::{Second, caught_up};
use crate::release::{release_image, release_pen, release_second, release_session};
use crate::report::Loss;
use crate::writing::show;
use h5w_image::{ImageError, Journal, MemImage, OpenGate};
use h5w_model::OutOfMemory;
use h5w_options::Options;
use h5w_pen::Pen;
use h5w_replica::Mirror;
use h5w_shared::{Note, SharedImage};
use h5w_writer::WriterCore;
use std::alloc::Global;
use std::sync::Wait;

/// The ring between two images has room for so many batches.
const BATCHES: usize = 64;

/// A shared image without bytes and what writes it; a second image too, where readers are to look at it.
fn images(alloc: Global, mirrors: u32) -> Result<(SharedImage, Pen, Option<Second>), OutOfMemory>
    ensures start { IfOk result (λ r. r.0.start ≡ []) }
    ensures image { IfOk result (λ r. r.1.image ≡ r.0) }
    ensures seen { IfOk result (λ r. r.1.seen ≡ []) }
    ensures second { IfOk result (λ r. IfSome r.2 (IsSecondOf r.0)) }
    ensures empty { IfOk result (λ r. IfSome r.2 (λ s. s.follow.second.seen ≡ [])) }
    ensures none { IfOk result (λ r. IfNone r.2 (mirrors ≡ 0)) }
{
    if mirrors == 0 {
        let (image, seat) = SharedImage::new(alloc, MemImage::new(alloc)?)?;
        return Ok((image, Pen::alone(seat), None));
    }
    let Mirror {
        first,
        second,
        feed,
        follow,
    } = Mirror::new(alloc, &[], BATCHES)?;
    let second = Second {
        image: second,
        follow,
    };
    Ok((first, Pen::fed(feed), Some(second)))
}

/// Why nothing comes of what this writes.
fn loss_of(error: ImageError, seat: Pen) -> Loss
    requires { error ≡ ImageError.Failed → 0 < seat.faults }
{
    match error {
        ImageError::OutOfMemory => {
            release_pen(seat);
            Loss::OutOfMemory
        }
        ImageError::Failed => Loss::Failed(seat.worn()),
    }
}

/// A copy of all pieces, and a note of them. What writes comes back.
pub fn copied<R: Wait>(
    rt: &R,
    image: &SharedImage,
    mut seat: Pen,
) -> Result<(Pen, Journal, Note), Loss>
    requires { seat.image ≡ image.now }
    ensures seat { IfOk result (λ r. r.0 ≡ seat) }
    ensures journal { IfOk result (λ r. r.1.writes ≡ seat.seen) }
    ensures short { IfOk result (λ r. AreShort r.1.writes) }
    ensures note { IfOk result (λ r. r.2 ≡ note_of seat) }
{
    match seat.journal(rt, image) {
        Ok((journal, note)) => Ok((seat, journal, note)),
        Err(error) => Err(loss_of(error, seat)),
    }
}

/// The second image gets the pieces of the creation.
fn second_created<R: Wait>(
    rt: &R,
    image: &SharedImage,
    seat: Pen,
    second: Second,
) -> Result<(Pen, Second), Loss>
    requires image { seat.image ≡ image.now }
    requires second { IsSecondOf image.now second }
    requires none { second.follow.second.seen ≡ [] }
    ensures seat { IfOk result (λ r. r.0 ≡ seat) }
    ensures second { IfOk result (λ r. IsSecondOf image.now r.1) }
    ensures has { IfOk result (λ r. r.1.follow.second.seen ≡ seat.seen) }
{
    let (seat, journal, note) = match copied(rt, image, seat) {
        Ok(copied) => copied,
        Err(loss) => {
            release_second(Some(second));
            return Err(loss);
        }
    };
    match caught_up(rt, image, second, &journal, note) {
        Ok(second) => Ok((seat, second)),
        Err(loss) => {
            release_pen(seat);
            Err(loss)
        }
    }
}

/// A second image, if there is one, gets the pieces of the creation.
fn both_created<R: Wait>(
    rt: &R,
    image: SharedImage,
    seat: Pen,
    second: Option<Second>,
) -> Result<(SharedImage, Pen, Option<Second>), Loss>
    requires image { seat.image ≡ image }
    requires second { IfSome second (IsSecondOf image) }
    requires empty { IfSome second (λ s. s.follow.second.seen ≡ []) }
    ensures image { IfOk result (λ r. r.0 ≡ image) }
    ensures seat { IfOk result (λ r. r.1 ≡ seat) }
    ensures second { IfOk result (λ r. IfSome r.2 (IsSecondOf image)) }
    ensures has { IfOk result (λ r. IfSome r.2 (λ s. s.follow.second.seen ≡ seat.seen)) }
    ensures none { (n : ℕ) → IfNone second (n ≡ 0) → IfOk result (λ r. IfNone r.2 (n ≡ 0)) }
{
    let Some(second) = second else {
        return Ok((image, seat, None));
    };
    match second_created(rt, &image, seat, second) {
        Ok((seat, second)) => Ok((image, seat, Some(second))),
        Err(loss) => {
            release_image(image);
            Err(loss)
        }
    }
}

/// The pieces of the creation become visible.
fn show_created<R: Wait>(
    rt: &R,
    image: &SharedImage,
    seat: &mut Pen,
    session: &mut WriterCore,
) -> Result<(), ImageError>
    requires image { seat.old.image ≡ image.now }
    requires start { image.now.start ≡ [] }
    requires seen { seat.old.seen ≡ [] }
    requires creates { (f : CreatedFile) × (most : ℕ) × IsCreating f most session.old }
    ensures image { seat.new.image ≡ image.now }
    ensures created { (f : CreatedFile) (most : ℕ) → IsCreating f most session.old → OnOk result (HasFlushed f most [] session.new seat.new []) }
    ensures failed { result ≡ Err ImageError.Failed → 0 < seat.new.faults }
{
    match seat.reserve(rt, image, session.pending() + 1, session.end()) {
        Ok(()) => {}
        Err(error) => return Err(error),
    }
    match show(rt, image, seat, session, &OpenGate, 0) {
        Ok(()) => Ok(()),
        Err(_) => Err(ImageError::Failed),
    }
}

/// An image that has the pieces of the creation, with what writes it. Where readers are to look at a second image, that one has these
/// pieces too.
fn shared<R: Wait>(
    rt: &R,
    alloc: Global,
    session: &mut WriterCore,
    mirrors: u32,
) -> Result<(SharedImage, Pen, Option<Second>), Loss>
    requires { (f : CreatedFile) × (most : ℕ) × IsCreating f most session.old }
    ensures image { IfOk result (λ r. r.1.image ≡ r.0) }
    ensures created { (f : CreatedFile) (most : ℕ) → IsCreating f most session.old → IfOk result (λ r. HasFlushed f most [] session.new r.1 []) }
    ensures second { IfOk result (λ r. IfSome r.2 (IsSecondOf r.0)) }
    ensures has { IfOk result (λ r. IfSome r.2 (λ s. s.follow.second.seen ≡ r.1.seen)) }
    ensures none { IfOk result (λ r. IfNone r.2 (mirrors ≡ 0)) }
{
    let (image, mut seat, second) = match images(alloc, mirrors) {
        Ok(made) => made,
        Err(error) => return Err(error.into()),
    };
    match show_created(rt, &image, &mut seat, session) {
        Ok(()) => both_created(rt, image, seat, second),
        Err(error) => {
            release_image(image);
            release_second(second);
            Err(loss_of(error, seat))
        }
    }
}

/// A session that created a file by these options, and the image that has the pieces of the creation, with what writes it. Where readers are to
/// look at a second image, that one has these pieces too.
pub fn create<R: Wait>(
    rt: &R,
    alloc: Global,
    options: &Options,
    mirrors: u32,
) -> Result<(SharedImage, Pen, WriterCore, Option<Second>), Loss>
    requires { AreOptions options.now }
    ensures image { IfOk result (λ r. r.1.image ≡ r.0) }
    ensures created { IfOk result (λ r. HasFlushed (new_file options.now) options.now.limit [] r.2 r.1 []) }
    ensures second { IfOk result (λ r. IfSome r.3 (IsSecondOf r.0)) }
    ensures has { IfOk result (λ r. IfSome r.3 (λ s. s.follow.second.seen ≡ r.1.seen)) }
    ensures none { IfOk result (λ r. IfNone r.3 (mirrors ≡ 0)) }
{
    let mut session = match WriterCore::create(alloc, options) {
        Ok(session) => session,
        Err(error) => return Err(error.into()),
    };
    match shared(rt, alloc, &mut session, mirrors) {
        Ok((image, seat, second)) => Ok((image, seat, session, second)),
        Err(loss) => {
            release_session(session);
            Err(loss)
        }
    }
}
