//! Files that are shown half written, or another in each look.

use crate::files::FILE_ROWS;
use crate::restless::Restless;
use crate::steps::{bytes_of, changed, ran, step_of};
use std::process::Abort;
use std::sync::Wait;
use std::test::Fail;
use std::thread::Threads;

/// A file of three rows, shown otherwise: its bytes in other looks, the numbers of the first of these and of the one behind them, and a
/// place whose byte is the number of the look, where there is one. Behind these stand the words of a poll, its status and its text.
type Shown = (
    (&'static str, u64, u64, usize),
    &'static str,
    u64,
    &'static str,
);

/// The dataset header half written, as the first flush writes it.
const HALF: &str = "176=ff*8 184=b0e26f8c";

const POLLS: [Shown; 6] = [
    (
        ("128=00", 0, 0, 128),
        " poll f --times 2 --attempts 2",
        7,
        "error again 2 128 4 5\n",
    ),
    (
        (HALF, 1, 1001, usize::MAX),
        " poll f --times 2 --values",
        0,
        "rows 3\n1\n2\n3\nrows 3\n",
    ),
    (
        (HALF, 7, 1001, usize::MAX),
        " poll f --times 2",
        0,
        "rows 3\nrows 3\n",
    ),
    ((HALF, 1, 49_001, usize::MAX), " poll f", 0, "rows 3\n"),
    (
        (HALF, 1, 60_001, usize::MAX),
        " poll f",
        5,
        "error damaged 106 sum 8c6fe2b0 bf159e85\n",
    ),
    (
        (HALF, 7, 60_001, usize::MAX),
        " poll f --times 2",
        5,
        "rows 3\nerror damaged 106 sum 8c6fe2b0 bf159e85\n",
    ),
];

/// A disk that shows the first file of the table of files so.
fn disk_of(
    rt: &impl AllocGlobal,
    (half, begins, ends, place): (&str, u64, u64, usize),
) -> Result<Restless, Fail> {
    let told = FILE_ROWS.split("% f ").nth(1).ok_or("a file")?;
    let (words, _) = told.split_once('\n').ok_or("its bytes")?;
    let bytes = bytes_of(rt, words)?;
    let half = changed(rt, &bytes, half)?;
    Ok(Restless {
        bytes,
        half,
        begins,
        ends,
        place,
        looks: 0,
    })
}

/// Panics where a poll does not come to what is wanted.
fn check_poll<R: Threads + Wait + Sync + Abort + AllocGlobal>(
    rt: &R,
    disk: &mut Restless,
    words: &str,
    wanted: (u64, &str),
) -> Result<(), Fail> {
    let step = step_of(rt, "")?;
    let (status, text) = ran(rt, words, &step, disk)?;
    assert_eq!(rt; (status, text.as_str()), wanted);
    Ok(())
}

#[test]
fn a_file_that_is_written_is_looked_at_again(rt: HostRuntime) -> Result<(), Fail> {
    for (how, words, status, text) in POLLS {
        let mut disk = disk_of(&rt, how)?;
        check_poll(&rt, &mut disk, words, (status, text))?;
    }
    Ok(())
}
