use crate::steps::{ran, step_of};
use h5w_image::MemDisk;
use std::process::Abort;
use std::sync::Wait;
use std::test::Fail;
use std::thread::Threads;

/// What is wanted of runs in threads whose text no schedule changes; the form is that of the other rows. The creation has five pieces where
/// rows are single values, and four where they have columns.
pub const LIVE_ROWS: &str = "
# readers beside a writer without rows
$ live --type i32le --chunk 2 --readers 2 --polls 3
=> poll 1 1 5 5 rows 0 sum 0
=> poll 1 2 5 5 rows 0 sum 0
=> poll 1 3 5 5 rows 0 sum 0
=> poll 2 1 5 5 rows 0 sum 0
=> poll 2 2 5 5 rows 0 sum 0
=> poll 2 3 5 5 rows 0 sum 0
=> done 0

# empty batches
$ live --type i8 --chunk 2 --readers 1 --polls 1
-
-
=> poll 1 1 5 5 rows 0 sum 0
=> done 0

# rows of columns
$ live --type i16le --chunk 2 --columns 3 --width 2 --readers 1 --polls 2
=> poll 1 1 4 4 rows 0 sum 0
=> poll 1 2 4 4 rows 0 sum 0
=> done 0

# a value outside the type in the fourth batch; the first and the third are empty
$ live --type i8 --chunk 2 --readers 1 --polls 1
-
1 2
-
-
3
127 128 => error range 4 2 128
= 8

# behind one empty batch, the first
$ live --type i8 --chunk 2 --readers 1 --polls 1
-
200 => error range 2 0 200
= 8

# behind a batch and an empty one
$ live --type i8 --chunk 2 --readers 1 --polls 1
1
-
-
200 => error range 3 0 200
= 8

# a line that is no row
$ live --type i16le --chunk 2 --columns 3 --width 2 --readers 1 --polls 1
1 2 3
-
4 5 => error line 3
= 8

# too many chunks
$ live --type i8 --chunk 1 --readers 1 --polls 1
1*32768
1*32768
1*32768
1*32757 => error full chunks 131061 131060
= 9

# no place
$ live --type i32le --chunk 128 --limit 1024 --readers 1 --polls 1
1 => error full space 558 512 1024
= 9

# a source that fails
$ live --type i8 --chunk 2 --readers 1 --polls 1
source 1
1 => error source
= 11

# a sink that fails
$ live --type i8 --chunk 2 --readers 1 --polls 1
sink 1
1
= 12

# words outside
$ live --type i8 --chunk 2 --readers 0 --polls 1
=> error usage
= 2
$ live --type i8 --chunk 2 --readers 17 --polls 1
=> error usage
= 2
$ live --type i8 --chunk 2 --readers 1 --polls 0
=> error usage
= 2
$ live --type i8 --chunk 2 --readers 1 --polls 10001
=> error usage
= 2
";

/// A run of two readers with three calls each beside its input: the words, the input, the lines of its flushes, what a call may find after
/// none, the first and the second of them, and the last line.
type Run = (
    &'static str,
    &'static str,
    &'static str,
    [&'static str; 3],
    &'static str,
);

// An empty batch has no line. A chunk of 512 rows has four pieces, which are there before its flush where the budget is 1,024 bytes. Rows of
// three columns: the first flush writes two chunks, the tree's leaf in four pieces, the superblock, the tree's header and the dataset's, 9
// pieces behind the 4 of the creation; the second writes the cells of a row in these chunks, two more, and then the same.
const RUNS: [Run; 3] = [
    (
        " live --type i32le --readers 2 --polls 3 --chunk 2",
        "1 2 3\n-\n-\n4",
        "flush 11 3\nflush 13 4\n",
        ["0 sum 0", "3 sum 6", "4 sum 10"],
        "done 4\n",
    ),
    (
        " live --type i32le --readers 2 --polls 3 --chunk 512 --budget 1024",
        "1 2 3\n-\n4",
        "flush 13 3\nflush 15 4\n",
        ["0 sum 0", "3 sum 6", "4 sum 10"],
        "done 4\n",
    ),
    (
        " live --type i32le --readers 2 --polls 3 --chunk 2 --columns 3 --width 2",
        "1 2 3\n-\n4 5 6\n7 8 9",
        "flush 13 1\nflush 24 3\n",
        ["0 sum 0", "1 sum 6", "3 sum 45"],
        "done 3\n",
    ),
];

/// Whether six lines are two readers' calls, of which each finds no less than its reader's one before.
fn are_calls(text: &str, finds: &[&str]) -> bool {
    let mut seen = 0;
    for (k, line) in text.split('\n').take(6).enumerate() {
        let begin = if k < 3 { "poll 1 " } else { "poll 2 " };
        let (first, found) = line.split_once(" rows ").unwrap_or(("", ""));
        let Some(place) = finds.iter().position(|it| *it == found) else {
            return false;
        };
        if !first.starts_with(begin) || (k != 3 && place < seen) {
            return false;
        }
        seen = place;
    }
    text.split('\n').count() == 7
}

/// Panics where a run is told otherwise.
fn check_run<R: Threads + Wait + Sync + Abort + AllocGlobal>(
    rt: &R,
    (words, input, flushes, finds, done): Run,
) -> Result<(), Fail> {
    let mut disk = MemDisk::new(rt.alloc());
    let step = step_of(rt, input)?;
    let (status, text) = ran(rt, words, &step, &mut disk)?;
    let calls = text.strip_prefix(flushes).ok_or("flushes")?;
    let calls = calls.strip_suffix(done).ok_or("all rows")?;
    assert!(rt; status == 0 && are_calls(calls, &finds), "{text}");
    Ok(())
}

#[test]
fn batches_are_flushed_beside_readers(rt: HostRuntime) -> Result<(), Fail> {
    for run in RUNS {
        check_run(&rt, run)?;
    }
    Ok(())
}
