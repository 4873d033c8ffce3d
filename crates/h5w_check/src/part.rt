//! The datasets of a file, one after another.
ghost use Rattle.std.specs.Prelude.{◌≡◌, ◌++◌, ◌∷◌, [], Ok};
ghost use Rattle.h5w_model.specs.Programs.{eval};
ghost use Rattle.h5w_model.specs.Tables.{each_of, format_limits};
ghost use Rattle.h5w_model.specs.Findings.{checked_part};
ghost use Rattle.h5w_check.specs.Ran.{Ran, Told, answering, seen};
ghost use Rattle.h5w_check.specs.Roots.{part_after, parts_after};

use crate::error::CheckError;
use crate::header::dataset;
use crate::index::index;
use crate::ranges::Ranges;
use h5w_image::PieceRead;
use h5w_super::Super;
use std::alloc::Global;

/// The rows of the dataset whose header stands at `at`. Adds the ranges of its header and of its index.
fn part<I: PieceRead>(
    alloc: Global,
    image: &mut I,
    s: &Super,
    at: u64,
    ranges: &mut Ranges,
) -> Result<u64, CheckError>
    ensures { Ran (I.view image.old) (I.view image.new)
        (λ img. part_after ranges.old (eval img (checked_part format_limits s.now at)))
        (seen (λ n. (n, ranges.new)) result) }
{
    let d = dataset(alloc, image, s, at, ranges)?;
    index(alloc, image, s.end, &d, ranges)?;
    Ok(d.shape.rows)
}

/// Puts the rows of a dataset behind those of others.
fn put_rows(rows: &mut Vec<u64>, n: u64) -> Result<(), CheckError>
    ensures { Told (Ok (rows.old.items ++ n ∷ [])) (answering rows.new.items result) }
{
    match rows.push(n) {
        Ok(()) => Ok(()),
        Err(_) => Err(CheckError::OutOfMemory),
    }
}

/// The rows of the datasets whose headers stand at these places, one after another. Adds their ranges.
pub fn parts<I: PieceRead>(
    alloc: Global,
    image: &mut I,
    s: &Super,
    places: &[u64],
    ranges: &mut Ranges,
) -> Result<Vec<u64>, CheckError>
    ensures { Ran (I.view image.old) (I.view image.new)
        (λ img. parts_after [] ranges.old (eval img (each_of (checked_part format_limits s.now) places.now)))
        (seen (λ rows. (rows.items, ranges.new)) result) }
{
    let mut rows = Vec::new(alloc);
    for place in places {
        let n = part(alloc, image, s, *place, ranges)?;
        put_rows(&mut rows, n)?;
    }
    Ok(rows)
}
