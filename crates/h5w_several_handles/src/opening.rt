//! A writer of several datasets that a handle holds from now on.
ghost use Rattle.std.specs.Prelude.{◌≡◌, None, IfOk, OnOk};
ghost use Rattle.std.specs.List.{AllByRecursion};
ghost use Rattle.h5w_creation.specs.Forms.{a_name};
ghost use Rattle.h5w_options.specs.Options.{AreOptions};
ghost use Rattle.h5w_writer_handles.specs.CreatedBy.{options_of};
ghost use Rattle.h5w_several_handles.specs.Handles.{CreatesNamed, CreatesSet, HoldsSet, OpensNamed, OpensSet};
ghost use Rattle.h5w_several_handles.specs.Names.{AddsForms, AreSetBounds, AreSetOptions};
ghost use Rattle.h5w_several_handles.specs.Sets.{IsNewSet, IsOpenedSet};

use crate::bounds::{are_set_bounds, are_set_options, most_of};
use crate::names::names_of;
use crate::showing::pending;
use h5w_creation::{Form, form_of};
use h5w_handles::{H5wCode, H5wTold, Handle, Held, SeveralState};
use h5w_model::OutOfMemory;
use h5w_names::Names;
use h5w_opening::OpenError;
use h5w_several_writer::SeveralWriter;
use h5w_writer_handles::{Given, H5wOptions, refuse_file};
use std::alloc::Global;

/// Holds a session, and tells how many pieces are pending; or memory is wanting.
fn hold(handle: &mut Handle, alloc: Global, state: SeveralState) -> H5wTold
    requires { handle.old.at.held ≡ None }
    ensures { HoldsSet state result handle.new.at.held }
{
    let pending = pending(&state);
    if handle.hold(alloc, Held::Several(state)) {
        H5wCode::Done.with(0, pending)
    } else {
        H5wCode::Memory.alone()
    }
}

/// Puts the forms of these options behind others.
fn add_forms(
    alloc: Global,
    options: &[H5wOptions],
    forms: &mut Vec<Form>,
) -> Result<(), OutOfMemory>
    requires { AllByRecursion (λ (o : H5wOptions). AreOptions (options_of a_name o)) options.now }
    ensures { OnOk result (AddsForms options.now forms.old.items forms.new.items) }
{
    match options.split_first() {
        None => Ok(()),
        Some((o, rest)) => {
            let one = o.options(alloc, b"a")?;
            forms.push(form_of(&one))?;
            add_forms(alloc, rest, forms)
        }
    }
}

/// A session that creates a file with datasets of these names, each by the options at its place.
fn created(
    alloc: Global,
    names: &Names,
    options: &[H5wOptions],
) -> Result<SeveralState, OutOfMemory>
    requires { AreSetOptions names.now options.now }
    ensures { IfOk result (IsNewSet names.now options.now) }
{
    let mut forms = Vec::new(alloc);
    add_forms(alloc, options, &mut forms)?;
    let (limit, budget) = most_of(options);
    let new = h5w_several_creating::create(alloc, names, &forms, limit, budget)?;
    Ok(SeveralState {
        first: new.writes,
        session: new.session,
    })
}

/// Holds the session that creates a file with datasets of these names.
fn create_named(
    handle: &mut Handle,
    alloc: Global,
    names: &Names,
    options: &[H5wOptions],
) -> H5wTold
    requires none { handle.old.at.held ≡ None }
    requires options { AreSetOptions names.now options.now }
    ensures { CreatesNamed names.now options.now result handle.new.at.held }
{
    match created(alloc, names, options) {
        Ok(state) => hold(handle, alloc, state),
        Err(OutOfMemory) => H5wCode::Memory.alone(),
    }
}

/// Holds a writer from now on, which creates a file with a dataset of each of these names, by the options at its place: the bytes have the names one
/// behind another, and `lens` how long each is. The limit and the budget of the first count. The pieces of the creation are pending.
#[tactic(auto, using(crate::proofs::HoldLemmas::creates_memory, crate::proofs::HoldLemmas::creates_none, crate::proofs::HoldLemmas::creates_out, crate::proofs::HoldLemmas::creates_named))]
pub fn create(
    handle: &mut Handle,
    alloc: Global,
    lens: &[u64],
    bytes: &[u8],
    options: &[H5wOptions],
) -> H5wTold
    ensures { CreatesSet lens.now bytes.now options.now handle.old.at.held result handle.new.at.held }
{
    if !handle.is_none() {
        return H5wCode::Busy.alone();
    }
    let Ok(given) = names_of(alloc, lens, bytes) else {
        return H5wCode::Memory.alone();
    };
    let Some(names) = given else {
        return H5wCode::Misuse.alone();
    };
    if !are_set_options(&names, options) {
        return H5wCode::Misuse.alone();
    }
    create_named(handle, alloc, &names, options)
}

/// The session over the file of these bytes, which is opened, or taken over from a session that left it open.
fn opened(
    alloc: Global,
    bytes: &[u8],
    names: &Names,
    limit: u64,
    budget: u64,
    takes: bool,
) -> Result<SeveralWriter, OpenError>
    requires { AreSetBounds names.now limit budget }
    ensures { IsOpenedSet takes bytes.now names.now limit budget result }
{
    let size = bytes.len() as u64;
    let mut image = Given { bytes };
    if takes {
        h5w_several_open::takeover(alloc, &mut image, size, names, limit, budget)
    } else {
        h5w_several_open::open(alloc, &mut image, size, names, limit, budget)
    }
}

/// Holds the session over the file of these bytes, or puts the line of its refusal.
fn open_named(
    handle: &mut Handle,
    alloc: Global,
    file: &[u8],
    names: &Names,
    limit: u64,
    budget: u64,
    takes: bool,
    text: &mut [u8],
) -> H5wTold
    requires none { handle.old.at.held ≡ None }
    requires bounds { AreSetBounds names.now limit budget }
    ensures { OpensNamed takes file.now names.now limit budget text.old result text.new handle.new.at.held }
{
    match opened(alloc, file, names, limit, budget, takes) {
        Ok(session) => {
            let first = Vec::new(alloc);
            hold(handle, alloc, SeveralState { first, session })
        }
        Err(error) => refuse_file(alloc, &error, text),
    }
}

/// Holds a writer from now on, which appends to the datasets of these names in the file of these bytes, up to `limit` bytes of the file; of each
/// dataset at most `budget` bytes wait. If it takes the file over, nothing is pending; else the superblock is. If the file is refused its line goes to
/// the front of `text`, as much of it as there is room for, unless memory is wanting for it.
#[tactic(auto, using(crate::proofs::HoldLemmas::opens_memory, crate::proofs::HoldLemmas::opens_none, crate::proofs::HoldLemmas::opens_out, crate::proofs::HoldLemmas::opens_named))]
pub fn open(
    handle: &mut Handle,
    alloc: Global,
    file: &[u8],
    lens: &[u64],
    bytes: &[u8],
    limit: u64,
    budget: u64,
    takes: bool,
    text: &mut [u8],
) -> H5wTold
    ensures { OpensSet takes file.now lens.now bytes.now limit budget text.old handle.old.at.held result text.new handle.new.at.held }
{
    if !handle.is_none() {
        return H5wCode::Busy.alone();
    }
    let Ok(given) = names_of(alloc, lens, bytes) else {
        return H5wCode::Memory.alone();
    };
    let Some(names) = given else {
        return H5wCode::Misuse.alone();
    };
    if !are_set_bounds(&names, limit, budget) {
        return H5wCode::Misuse.alone();
    }
    open_named(handle, alloc, file, &names, limit, budget, takes, text)
}
