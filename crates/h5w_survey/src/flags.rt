//! Whether somebody writes a file.
ghost use Rattle.std.specs.Prelude.{◌≡◌};
ghost use Rattle.h5w_survey.specs.Surveys.{ClosedSuper, RefusedSuper, is_written};
ghost use Rattle.h5w_survey.specs.Steps.{SurveyStep};

use crate::error::SurveyError;
use h5w_headers::superblock;
use h5w_image::PieceRead;
use h5w_model::Super;
use std::alloc::Global;

/// The version of a superblock of which the flags say nothing.
const OLDER: u8 = 2;

/// Whether somebody writes the file, or did not close it. Of version 2 the flags say nothing.
fn is_written(s: &Super) -> bool
    ensures { result ≡ is_written s.now }
{
    s.version != OLDER && (s.flags % 2 != 0 || s.flags / 4 % 2 != 0)
}

/// The superblock of a file that nobody writes.
pub fn closed<I: PieceRead>(alloc: Global, from: &mut I) -> Result<Super, SurveyError>
    ensures step { SurveyStep (I.view from.old) (I.view from.new) ClosedSuper RefusedSuper result }
{
    let s = superblock(alloc, from)?;
    if is_written(&s) {
        return Err(SurveyError::Flags { flags: s.flags });
    }
    Ok(s)
}
