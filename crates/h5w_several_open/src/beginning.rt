//! The two ways in which a session begins over a file that is there.
ghost use Rattle.std.specs.Prelude.{◌≡◌, ◌^◌, ◌≤◌, ℕ, ℤ, List, length, IfErr, IfOk, Err};
ghost use Rattle.std.specs.List.{All};
ghost use Rattle.h5w_model.specs.Causes.{Rose};
ghost use Rattle.h5w_model.specs.Findings.{AllSummary, AllValid, Summary, Valid};
ghost use Rattle.h5w_model.specs.Relations.{AllPaired};
ghost use Rattle.h5w_model.specs.Several.{Begun};
ghost use Rattle.h5w_model.specs.Tables.{Reads};
ghost use Rattle.h5w_image.specs.View.{Looked};
ghost use Rattle.h5w_looks.specs.Still.{IsStill};
ghost use Rattle.h5w_opening.specs.Errors.{IsOpenKind};
ghost use Rattle.h5w_writer.specs.Openings.{opened_log};
ghost use Rattle.h5w_writer.specs.Stands.{Stands};
ghost use Rattle.h5w_several_writer_laws.specs.Standing.{StandsAll};
ghost use Rattle.h5w_several_open.specs.Begins.{ReadsIt};
ghost use Rattle.h5w_several_open.specs.Beginnings.{HasBegunBy, HaveBegunBy, IsAllAnswer, IsBeginAnswer};
ghost use Rattle.h5w_several_open.specs.Stands.{opened_file};

use crate::alone::takeover_one;
use crate::session::open;
use crate::taking::takeover;
use h5w_image::PieceRead;
use h5w_names::Names;
use h5w_opening::OpenError;
use h5w_several_writer::SeveralWriter;
use h5w_writer::WriterCore;
use std::alloc::Global;

/// How a session begins over a file that is there.
#[derive(Clone, Copy)]
pub enum Beginning {
    /// Nobody writes the file. It is opened, and the superblock is pending by which it says that it is written.
    Opened,
    /// Another session left it open for SWMR writing. It is taken over, and nothing is pending.
    TakenOver,
}

/// Begins a session over the dataset of this name in a file of `size` bytes, to append rows to it up to `limit` bytes of
/// the file, of which at most `budget` bytes wait unwritten. The image is only looked at. An open is as
/// [`open`](h5w_writer_open::open) says. A takeover asks that both flags of a writer are set, else the file is refused
/// for its flags; all else is refused as it says. Nothing is pending then, new places begin at the superblock's
/// end-of-file address, and nothing is free. Rows that the other session had not flushed are gone. Nobody else may write
/// the file from then on.
///
/// Failed: the image's count of faults rose.
pub fn begin_one<I: PieceRead>(
    alloc: Global,
    by: Beginning,
    image: &mut I,
    size: u64,
    name: &[u8],
    limit: u64,
    budget: u64,
) -> Result<WriterCore, OpenError>
    requires name { length name.now ≤ 512 }
    requires low { 1024 ≤ limit }
    requires high { limit ≤ 2 ^ 40 }
    requires budget { (1024 ≤ budget) × (budget ≤ 2 ^ 30) }
    ensures looked { Looked (I.view image.old) (I.view image.new) }
    ensures cause { result ≡ Err OpenError.Failed → Rose (I.view image.old).faults (I.view image.new).faults }
    // on every image a Read is none of NotSwmr, Again, Shrunk and OutOfMemory
    ensures kinds { IfErr result IsOpenKind }
    // where the image tells its bytes and nobody else writes it
    ensures exact { (img : List ℕ) → IsStill (I.view image.old) img → IsBeginAnswer by img size name.now limit budget result }
    // on every image
    ensures begun { IfOk result (λ s. HasBegunBy by name.now limit budget s) }
    // where the file is valid, the session stands for the log over it to which nothing happened yet
    ensures stands { IfOk result (λ s. (img : List ℕ) (rows columns : ℕ) (values : List ℤ) (sm : Summary) → IsStill (I.view image.old) img → Valid img name.now sm → Reads img name.now rows columns values
        → Stands s (opened_log img columns values)) }
{
    match by {
        Beginning::Opened => h5w_writer_open::open(alloc, image, size, name, limit, budget),
        Beginning::TakenOver => takeover_one(alloc, image, size, name, limit, budget),
    }
}

/// Begins one session over the datasets of these names, 1 to 8 of them, as [`open`] or [`takeover`] says.
///
/// Failed: the image's count of faults rose.
pub fn begin_all<I: PieceRead>(
    alloc: Global,
    by: Beginning,
    image: &mut I,
    size: u64,
    names: &Names,
    limit: u64,
    budget: u64,
) -> Result<SeveralWriter, OpenError>
    requires some { 1 ≤ length names.now }
    requires few { length names.now ≤ 8 }
    requires names { All (λ name. length name ≤ 512) names.now }
    requires low { 1024 ≤ limit }
    requires high { limit ≤ 2 ^ 40 }
    requires budget { (1024 ≤ budget) × (budget ≤ 2 ^ 30) }
    ensures looked { Looked (I.view image.old) (I.view image.new) }
    ensures cause { result ≡ Err OpenError.Failed → Rose (I.view image.old).faults (I.view image.new).faults }
    // on every image a Read is none of NotSwmr, Again, Shrunk and OutOfMemory
    ensures kinds { IfErr result IsOpenKind }
    // where the image tells its bytes and nobody else writes it
    ensures exact { (img : List ℕ) → IsStill (I.view image.old) img → IsAllAnswer by img size names.now limit budget result }
    // on every image
    ensures begun { IfOk result (λ s. HaveBegunBy by names.now limit budget s) }
    // where the file is valid for all names, the session stands for the log over it to which nothing happened yet
    ensures stands { IfOk result (λ s. (img : List ℕ) (t : AllSummary) (sets : List Begun) → IsStill (I.view image.old) img → AllValid img names.now t → AllPaired (ReadsIt img) names.now sets → StandsAll s (opened_file img sets)) }
{
    match by {
        Beginning::Opened => open(alloc, image, size, names, limit, budget),
        Beginning::TakenOver => takeover(alloc, image, size, names, limit, budget),
    }
}
