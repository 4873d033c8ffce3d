//! The addresses of the chunks that a dataset's rows need.
ghost use Rattle.std.specs.Prelude.{◌≡◌, None};
ghost use Rattle.h5w_model.specs.Programs.{eval};
ghost use Rattle.h5w_dataset.specs.Founds.{founds};
ghost use Rattle.h5w_lookup.specs.Attempts.{described_rest, rules_of};
ghost use Rattle.h5w_lookup.specs.Descents.{reading_news};
ghost use Rattle.h5w_headers.specs.Errors.{find_errors};
ghost use Rattle.h5w_headers.specs.Ran.{Ran, seen};

use crate::looking::looked_up;
use h5w_dataset::FoundMessage;
use h5w_headers::FindError;
use h5w_image::PieceRead;
use h5w_lookup::{News, Rules, settle};
use h5w_model::OutOfMemory;
use std::alloc::Global;

/// What these messages of the dataset header at `rules.place` say, and where the chunks of its rows stand.
pub fn addresses<I: PieceRead>(
    alloc: Global,
    image: &mut I,
    rules: &Rules,
    found: &[FoundMessage],
) -> Result<News, FindError>
    ensures ran { Ran find_errors (I.view image.old) (I.view image.new) (λ img. eval img (described_rest (rules_of rules.now None) (founds found.now))) (seen (reading_news None) result) }
{
    let begun = match settle(alloc, rules, &None, found) {
        Ok(begun) => begun,
        Err(OutOfMemory) => return Err(FindError::OutOfMemory),
    };
    match looked_up(alloc, image, rules, begun)? {
        Ok(news) => Ok(news),
        Err(error) => Err(FindError::Refused(error)),
    }
}
