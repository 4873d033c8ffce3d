//! Another writer takes the file over from a session that was stopped.
ghost use Rattle.std.specs.Prelude.{◌≡◌, ◌^◌, ◌≤◌, ℕ, List, None, Result, IfErr, IfOk, length, map};
ghost use Rattle.std.specs.List.{All};
ghost use Rattle.h5w_image.specs.View.{Same};
ghost use Rattle.h5w_opening.specs.Errors.{refusal_of};
ghost use Rattle.h5w_opening.specs.declared.error.OpenError.{OpenError};
ghost use Rattle.h5w_writer.specs.Sessions.{Session};
ghost use Rattle.h5w_several_open.specs.Taken.{HasTakenAll, IsTakenAll, IsTakenAnswer};
ghost use Rattle.h5w_several_writer_laws.specs.Sessions.{AreSessions, Sessions};
ghost use Rattle.h5w_several_writer_laws.specs.Valid.{names_in};
ghost use Rattle.h5w_steady.specs.Steady.{steady};

use h5w_model::OutOfMemory;
use h5w_names::Names;
use h5w_opening::OpenError;
use h5w_several_open::takeover;
use h5w_several_writer::{Parts, SeveralWriter};
use h5w_steady::SteadyImage;
use std::alloc::Global;

/// The names of the session's datasets, in their order.
pub(crate) fn names(alloc: Global, session: &SeveralWriter) -> Result<Names, OutOfMemory>
    ensures names { IfOk result (λ names. names ≡ names_in session.now.parts) }
    ensures sessions { AreSessions session.now }
{
    let mut names = Names::new(alloc);
    for d in 0..session.count() {
        names.push(session.name(d))?;
    }
    Ok(names)
}

/// How many rows each dataset has in the file by the pieces that became visible.
pub(crate) fn committed(session: &SeveralWriter) -> Parts
    ensures { result ≡ map (λ (s : Session). s.committed) session.now.parts }
{
    let mut rows = Parts::new();
    for d in 0..session.count() {
        rows.push(session.committed(d));
    }
    rows
}

/// The session with which another writer takes over the datasets of these names in an image that refuses none of them.
pub(crate) fn taken(
    alloc: Global,
    image: &mut SteadyImage,
    names: &Names,
    limit: u64,
    budget: u64,
) -> Result<SeveralWriter, OutOfMemory>
    requires some { 1 ≤ length names.now }
    requires few { length names.now ≤ 8 }
    requires names { All (λ name. length name ≤ 512) names.now }
    requires low { 1024 ≤ limit }
    requires high { limit ≤ 2 ^ 40 }
    requires budget { (1024 ≤ budget) × (budget ≤ 2 ^ 30) }
    requires unrefused { (r : Result Sessions OpenError) → IsTakenAnswer image.old.bytes (length image.old.bytes) names.now limit budget r → IfErr r (λ e. refusal_of e ≡ None) }
    ensures same { Same (steady image.old) (steady image.new) }
    ensures taken { IfOk result (λ s. IsTakenAll image.old.bytes (length image.old.bytes) names.now limit budget s) }
    ensures begun { IfOk result (λ s. HasTakenAll names.now limit budget s) }
{
    let size = image.len();
    match takeover(alloc, image, size, names, limit, budget) {
        Ok(session) => Ok(session),
        Err(OpenError::OutOfMemory) => Err(OutOfMemory),
        Err(_) => unreachable!(),
    }
}
