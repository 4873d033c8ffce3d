//! A writer that a handle holds from now on.
ghost use Rattle.std.specs.Prelude.{◌≡◌, None, IfOk, IsTrue};
ghost use Rattle.h5w_options.specs.Options.{AreOptions};
ghost use Rattle.h5w_writer_handles.specs.CreatedBy.{options_of};
ghost use Rattle.h5w_writer_handles.specs.Handles.{AreBounds, CreatesWriter, Holds, IsNewWriter, IsOpened, OpensWriter, Refuses};

use crate::given::Given;
use crate::options::{H5wOptions, is_budget, is_limit};
use crate::telling::open_told;
use h5w_handles::{H5wCode, H5wTold, Handle, Held, put_line};
use h5w_model::OutOfMemory;
use h5w_writer::WriterCore;
use h5w_writer_lines::open_line;
use h5w_writer_open::OpenError;
use std::alloc::Global;

/// The most bytes of the name of a dataset that is opened.
const MOST_NAME: usize = 512;

/// Holds a session, and tells how many pieces are pending; or memory is wanting.
fn hold(handle: &mut Handle, alloc: Global, core: WriterCore) -> H5wTold
    requires { handle.old.at.held ≡ None }
    ensures { Holds core result handle.new.at.held }
{
    let pending = core.pending();
    if handle.hold(alloc, Held::Writer(core)) {
        H5wCode::Done.with(0, pending)
    } else {
        H5wCode::Memory.alone()
    }
}

/// A session that creates a file with a dataset of this name.
fn created(alloc: Global, name: &[u8], o: &H5wOptions) -> Result<WriterCore, OutOfMemory>
    requires { AreOptions (options_of name.now o.now) }
    ensures { IfOk result (IsNewWriter name.now o.now) }
{
    let options = o.options(alloc, name)?;
    WriterCore::create(alloc, &options)
}

/// Holds a writer from now on, which creates a file with a dataset of this name. Its pieces are pending.
pub fn create(handle: &mut Handle, alloc: Global, name: &[u8], o: &H5wOptions) -> H5wTold
    ensures { CreatesWriter name.now o.now handle.old.at.held result handle.new.at.held }
{
    if !handle.is_none() {
        return H5wCode::Busy.alone();
    }
    if !o.are_within(name) {
        return H5wCode::Misuse.alone();
    }
    match created(alloc, name, o) {
        Ok(core) => hold(handle, alloc, core),
        Err(OutOfMemory) => H5wCode::Memory.alone(),
    }
}

/// The session over the file of these bytes.
fn opened(
    alloc: Global,
    bytes: &[u8],
    name: &[u8],
    limit: u64,
    budget: u64,
) -> Result<WriterCore, OpenError>
    requires { AreBounds name.now limit budget }
    ensures { IsOpened bytes.now name.now limit budget result }
{
    let size = bytes.len() as u64;
    h5w_writer_open::open(alloc, &mut Given { bytes }, size, name, limit, budget)
}

/// Tells why a file is not opened, and puts its line.
pub fn refuse_file(alloc: Global, error: &OpenError, text: &mut [u8]) -> H5wTold
    ensures { Refuses error.now text.old result text.new }
{
    put_line(alloc, &open_line(*error), text);
    open_told(error)
}

/// Whether a file is opened within these bounds.
fn are_bounds(name: &[u8], limit: u64, budget: u64) -> bool
    ensures yes { IsTrue result → AreBounds name.now limit budget }
    ensures no { AreBounds name.now limit budget → IsTrue result }
{
    name.len() <= MOST_NAME && is_limit(limit) && is_budget(budget)
}

/// Holds a writer from now on, which appends to the dataset of this name in the file of these bytes, up to `limit` bytes of the file, of which
/// at most `budget` bytes wait unwritten. One piece is pending. If the file is refused its line goes to the front of `text`, as much of it as
/// there is room for, unless memory is wanting for it.
pub fn open(
    handle: &mut Handle,
    alloc: Global,
    bytes: &[u8],
    name: &[u8],
    limit: u64,
    budget: u64,
    text: &mut [u8],
) -> H5wTold
    ensures { OpensWriter bytes.now name.now limit budget text.old handle.old.at.held result text.new handle.new.at.held }
{
    if !handle.is_none() {
        return H5wCode::Busy.alone();
    }
    if !are_bounds(name, limit, budget) {
        return H5wCode::Misuse.alone();
    }
    match opened(alloc, bytes, name, limit, budget) {
        Ok(core) => hold(handle, alloc, core),
        Err(error) => refuse_file(alloc, &error, text),
    }
}
