//! The looks of a lookup of addresses, taken on an image.
ghost use Rattle.std.specs.Prelude.{◌≡◌, ◌<◌, ℕ, List, None, Err, IfOk};
ghost use Rattle.h5w_model.specs.Causes.{Rose};
ghost use Rattle.h5w_model.specs.Checked.{viewed};
ghost use Rattle.h5w_model.specs.Numbers.{AreBytes};
ghost use Rattle.h5w_model.specs.Programs.{eval};
ghost use Rattle.h5w_image.specs.View.{Looked};
ghost use Rattle.h5w_looks.specs.Still.{IsStill};
ghost use Rattle.h5w_lookup.specs.Attempts.{looked_up, looking_up, rules_of};
ghost use Rattle.h5w_lookup.specs.Descents.{reading_news};
ghost use Rattle.h5w_laws.specs.MostLooks.{most_looks};

use h5w_image::{ImageError, Piece, PieceRead};
use h5w_lookup::{Lookup, News, Outcome, Rules};
use h5w_model::ReadError;
use std::alloc::Global;

/// Each of a slice's bytes is below 256.
fn are_bytes(bytes: &[u8])
    ensures { AreBytes bytes.now }
{}

/// Takes the next look of a lookup, and goes on with what it gave.
fn one_look<I: PieceRead>(
    alloc: Global,
    image: &mut I,
    rules: &Rules,
    lookup: Lookup,
    piece: &mut Piece,
) -> Result<Outcome<News, Lookup>, ImageError>
    ensures looked { Looked (I.view image.old) (I.view image.new) }
    ensures cause { result ≡ Err ImageError.Failed → Rose (I.view image.old).faults (I.view image.new).faults }
    ensures exact { IfOk result (λ l. (img : List ℕ) → IsStill (I.view image.old) img → eval img (looked_up (rules_of rules.now None) l) ≡ eval img (looking_up (rules_of rules.now None) lookup)) }
    ensures fewer { IfOk result (λ l. most_looks (looked_up (rules_of rules.now None) l) < most_looks (looking_up (rules_of rules.now None) lookup)) }
{
    let look = lookup.want();
    image.look(look.at, look.len, piece)?;
    // That the looks come to an end rests on this: what each gives is bytes.
    are_bytes(piece.as_slice());
    let next = lookup.feed(alloc, rules, &None, piece)?;
    Ok(next)
}

/// Takes all looks of a lookup that has begun: what was found, or the refusal.
pub fn looked_up<I: PieceRead>(
    alloc: Global,
    image: &mut I,
    rules: &Rules,
    begun: Outcome<News, Lookup>,
) -> Result<Result<News, ReadError>, ImageError>
    ensures looked { Looked (I.view image.old) (I.view image.new) }
    ensures cause { result ≡ Err ImageError.Failed → Rose (I.view image.old).faults (I.view image.new).faults }
    ensures exact { IfOk result (λ answer. (img : List ℕ) → IsStill (I.view image.old) img → eval img (looked_up (rules_of rules.now None) begun) ≡ viewed (reading_news None) answer) }
{
    let mut piece = Piece::new();
    let mut step = begun;
    loop {
        match step {
            Outcome::Done(news) => return Ok(Ok(news)),
            Outcome::Refused(error) => return Ok(Err(error)),
            Outcome::Looks(lookup) => {
                step = one_look(alloc, image, rules, lookup, &mut piece)?;
            }
        }
    }
}
