ghost use Rattle.h5w_step_laws.specs.Logs.{Goes};
ghost use Rattle.h5w_examples.specs.Readings.{copied_block, data_name, two_flushes};
ghost use Rattle.h5w_session_examples.specs.Moments.{taken_again, chunks_of_two, with_four, behind_six, ones_of_six, behind_seven, ones_of_seven};

/// Creation, a flush of three rows, and one of a fourth beside the third in its chunk.
pub fn two_flushes_goes()
    ensures { Goes data_name two_flushes with_four chunks_of_two }
{}

/// A flush of five rows, and one of a sixth, which copies the data block that names the fifth chunk.
pub fn copied_block_goes()
    ensures { Goes data_name copied_block ones_of_six behind_six }
{}

/// And a flush of a seventh, which copies the data block to the place of the first one, that the header of six rows let go.
pub fn taken_again_goes()
    ensures { Goes data_name taken_again ones_of_seven behind_seven }
{}
