//! What an event makes of a reader in its place.
ghost use Rattle.std.specs.Prelude.{◌≡◌, None, Some, IfOk, Ok, OnErr, option_map};
ghost use Rattle.h5w_image.specs.View.{Same};
ghost use Rattle.h5w_core.specs.Readers.{IsCalling, LookGives, LookReplies, MayRead, OpenGives, ReadGives, ReadLooks, RefreshGives, ended, placed};
ghost use Rattle.h5w_steady.specs.Steady.{steady};
ghost use Rattle.h5w_core.specs.Worlds.{full_reply};
ghost use Rattle.h5w_space.specs.declared.Full.{Full};
ghost use Rattle.h5w_reader.specs.Cores.{reader};
ghost use Rattle.h5w_reader.specs.Readers.{reader_rules};

use h5w_model::{OutOfMemory, ReadError, Reply};
use h5w_reader::{ReadBegin, ReaderCore, Step};
use h5w_steady::SteadyImage;
use std::alloc::Global;

/// Puts a reader into its place.
fn put(place: &mut Option<ReaderCore>, core: ReaderCore)
    ensures { placed place.new ≡ Some (reader core) }
{
    *place = Some(core);
}

/// Begins to open a reader of the dataset of this name, where none is there.
pub fn open(
    place: &mut Option<ReaderCore>,
    alloc: Global,
    reader: u64,
    name: &[u8],
    attempts: u32,
) -> Result<Reply, OutOfMemory>
    ensures gives { IfOk result (λ reply. OpenGives reader (reader_rules name.now attempts) (placed place.old) reply (placed place.new)) }
    ensures kept { OnErr result (placed place.new ≡ placed place.old) }
    ensures memory { OnErr result (placed place.old ≡ None) }
    ensures no_space { (full : Full) → result ≡ Ok (full_reply full) → ⊥ }
{
    if place.is_some() {
        return Ok(Reply::ReaderExists { reader });
    }
    let core = ReaderCore::open(alloc, name, attempts)?;
    put(place, core);
    Ok(Reply::Opening { reader })
}

/// Begins a refresh.
pub fn refresh(place: &mut Option<ReaderCore>, reader: u64) -> Reply
    ensures gives { RefreshGives reader (placed place.old) result (placed place.new) }
    ensures no_space { (full : Full) → result ≡ full_reply full → ⊥ }
{
    let Some(core) = place else {
        return Reply::NoReader { reader };
    };
    match core.refresh() {
        Ok(()) => Reply::Refreshing { reader },
        Err(ReadBegin::Busy) => Reply::ReaderBusy { reader },
        Err(_) => unreachable!(),
    }
}

/// Begins a read of `count` rows from row `from` on, where that needs a look.
pub fn read(
    place: &mut Option<ReaderCore>,
    reader: u64,
    from: u64,
    count: u64,
) -> Result<Reply, OutOfMemory>
    requires { ReadLooks from count (placed place.old) }
    ensures gives { IfOk result (λ reply. ReadGives reader from count (placed place.old) reply (placed place.new)) }
    ensures kept { OnErr result (placed place.new ≡ placed place.old) }
    ensures memory { OnErr result (MayRead from count (placed place.old)) }
    ensures no_space { (full : Full) → result ≡ Ok (full_reply full) → ⊥ }
{
    let Some(core) = place else {
        return Ok(Reply::NoReader { reader });
    };
    match core.read(from, count) {
        Ok(None) => Ok(Reply::Reading { reader }),
        Ok(Some(values)) => Ok(Reply::Values { reader, values }),
        Err(ReadBegin::Busy) => Ok(Reply::ReaderBusy { reader }),
        Err(ReadBegin::OutOfRows { from, count, rows }) => Ok(Reply::OutOfRows {
            reader,
            from,
            count,
            rows,
        }),
        Err(ReadBegin::OutOfMemory) => Err(OutOfMemory),
    }
}

/// Takes the look that an unfinished call wants. Want of memory ends the call.
pub fn look(
    place: &mut Option<ReaderCore>,
    reader: u64,
    image: &mut SteadyImage,
) -> Result<Reply, OutOfMemory>
    requires { LookReplies reader image.old.bytes (placed place.old) }
    ensures gives { IfOk result (λ reply. LookGives reader image.old.bytes (placed place.old) reply (placed place.new)) }
    ensures calling { OnErr result (IsCalling (placed place.old)) }
    ensures ended { OnErr result (placed place.new ≡ option_map ended (placed place.old)) }
    ensures image { Same (steady image.old) (steady image.new) }
    ensures no_space { (full : Full) → result ≡ Ok (full_reply full) → ⊥ }
{
    let Some(core) = place else {
        return Ok(Reply::NoReader { reader });
    };
    let Some(next) = core.want() else {
        return Ok(Reply::Idle { reader });
    };
    let piece = image.show(next.at, next.len);
    match core.give(&piece) {
        Step::More => Ok(Reply::Looking { reader }),
        Step::Rows(rows) => Ok(Reply::Rows { reader, rows }),
        Step::Values(values) => Ok(Reply::Values { reader, values }),
        Step::Refused(ReadError::Again { attempts, .. }) => Ok(Reply::Again { reader, attempts }),
        Step::Refused(ReadError::OutOfMemory) => Err(OutOfMemory),
        Step::Refused(_) => unreachable!(),
    }
}
