//! What readers are given while one writer appends and flushes.

ghost use Rattle.h5w_reader_laws.specs.Headline.{EndsWhenStill, OpensOnRows, ReadsValues, RefreshesToRows, WithinFromLast};

/// An open is answered with the rows that were flushed when it looked at the dataset header, no fewer than when it began,
/// or with Again where that header changed in each attempt.
pub fn opens_on_rows()
    ensures { OpensOnRows }
{}

/// A refresh likewise, with no fewer rows than were seen.
pub fn refreshes_to_rows()
    ensures { RefreshesToRows }
{}

/// A read of rows that were seen is answered with the values that were appended for them.
pub fn reads_values()
    ensures { ReadsValues }
{}

/// No position needs more chunks than the last one, so it is enough to know the limits there.
pub fn within_from_last()
    ensures { WithinFromLast }
{}

/// No call hangs where nothing more is shown, as where the writer stops between two pieces: it ends by looks at the last
/// image.
pub fn ends_when_still()
    ensures { EndsWhenStill }
{}
