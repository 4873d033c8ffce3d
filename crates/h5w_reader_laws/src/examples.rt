//! A log that readers can rest on, and a call during its second flush.

ghost use Rattle.std.specs.Prelude.{[], ◌∷◌, ◌++◌, Ok, Err};
ghost use Rattle.h5w_model.specs.Programs.{Takes};
ghost use Rattle.h5w_model.specs.Tables.{format_limits};
ghost use Rattle.h5w_model.specs.Readers.{IsCall, looks_of};
ghost use Rattle.h5w_model.specs.Calls.{open_call, rows_call};
ghost use Rattle.h5w_model.specs.Unfinished.{refresh_rules};
ghost use Rattle.h5w_examples.specs.Readings.{data_name, reading_as};
ghost use Rattle.h5w_reader_laws.specs.Headline.{Served, again_between};
ghost use Rattle.h5w_reader_laws.specs.Examples.{after_first_flush, first_attempt, look_at, one_attempt, second_attempt};

use h5w_examples::{two_flushes_keep, two_flushes_read};

/// Readers can rest on the log from its first flush on.
pub fn served_log()
    ensures { Served data_name after_first_flush }
{
    two_flushes_read();
    two_flushes_keep();
}

/// With one attempt an open whose last look comes after the second flush is answered with Again. With two it gets four
/// rows. A refresh that knew each needed chunk by then takes one look.
pub fn during_a_flush()
    ensures looks { IsCall after_first_flush 11 (first_attempt ++ second_attempt) }
    ensures again { Takes (open_call format_limits 0 1 data_name) (looks_of first_attempt) (Err (again_between after_first_flush 1 106 11 13)) }
    ensures rows { Takes (open_call format_limits 0 2 data_name) (looks_of (first_attempt ++ second_attempt)) (Ok (reading_as 4 188 (558 ∷ 566 ∷ []))) }
    ensures refresh { Takes (rows_call (refresh_rules one_attempt (reading_as 3 188 (558 ∷ 566 ∷ [])))) (looks_of (look_at 13 106 512 ∷ [])) (Ok (reading_as 4 188 (558 ∷ 566 ∷ []))) }
{}
