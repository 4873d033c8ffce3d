//! What is true of every log of which a session is the session.

ghost use Rattle.h5w_writer.specs.Laws.{RoomStays, ShownLaws, StandingLaws};
ghost use Rattle.h5w_writer.specs.Openings.{OverLaws};

/// A session's log is new, or began over a valid file; its columns are the dataset's. The session knows how many rows are flushed and
/// appended; at each position of its log the image is valid and reads as the rows that are flushed there, and what readers
/// rest on stays from each position to each later one. What a stopped session left is valid and reads as the flushed rows. No image is
/// longer than the limit or than the file that the log began with, whichever is more, and none needs more chunks than its index can have.
#[tactic(auto, using(h5w_writer::proofs::LawLemmas::standing_laws))]
pub fn standing_laws()
    ensures { StandingLaws }
{}

/// At each position of the log of a session that created its file the image shows a dataset of the session's shape, within all limits
/// that allow the chunks of a session, by one look at each header, and is no longer than the limit. Its index is one as it is made here, and
/// where nothing is pending and no rows wait an array's header on the image tells how many blocks and chunks there are.
#[tactic(auto, using(h5w_writer::proofs::LawLemmas::shown_laws))]
pub fn shown_laws()
    ensures { ShownLaws }
{}

/// An image with room for a session has room for it after the oldest piece was written.
#[tactic(auto, using(h5w_writer::proofs::LawLemmas::room_stays))]
pub fn room_stays()
    ensures { RoomStays }
{}

/// A session that has what a valid file has stands for the log over that file to which nothing happened yet; and a session stands for its
/// log with the superblock pending by which it says that it writes, or that it writes no more.
#[tactic(auto, using(h5w_writer::proofs::OpenedLemmas::over_laws))]
pub fn over_laws()
    ensures { OverLaws }
{}
