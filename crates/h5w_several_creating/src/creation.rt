//! A session of several datasets that creates its file.
ghost use Rattle.std.specs.Prelude.{◌≡◌, ◌*◌, ◌^◌, ◌≤◌, [], IfOk, length};
ghost use Rattle.h5w_several_creation_laws.specs.SeveralFiles.{AllNamed, created_writes};
ghost use Rattle.h5w_several_creation.specs.Forms.{AreForms, AreNames, each_by};
ghost use Rattle.h5w_several_writer_laws.specs.Sessions.{all_pending};
ghost use Rattle.h5w_several_writer_laws.specs.Standing.{StandsAll};
ghost use Rattle.h5w_several_creating.specs.Created.{IsCreatedAll, IsShownAll, created_file, led, shown_file};

use crate::parts::{Shared, add_parts};
use h5w_creation::Form;
use h5w_model::{OutOfMemory, Write};
use h5w_names::Names;
use h5w_several_creation::{create_files, first_place};
use h5w_several_writer::SeveralWriter;
use std::alloc::Global;

/// A new file: the pieces that make it, in the order in which they become visible, and the session over it that goes on
/// once all of them are.
#[derive(Drop)]
pub struct NewSession {
    /// Of each dataset those of its index and then its header; the root header, which links them in the order of their
    /// names; last the superblock, by which a reader finds the file.
    pub writes: Vec<Write>,
    pub session: SeveralWriter,
}

/// A new file with a dataset under each of these names, each by the form at its place, and the session that appends rows
/// to all, up to `limit` bytes of the file, of which at most `budget` bytes of each dataset wait unwritten. Refused only
/// for want of memory: nothing was done then.
pub fn create(
    alloc: Global,
    names: &Names,
    forms: &[Form],
    limit: u64,
    budget: u64,
) -> Result<NewSession, OutOfMemory>
    requires forms { AreForms names.now forms.now }
    requires names { AreNames names.now }
    requires named { AllNamed names.now }
    requires low { 1024 * length names.now ≤ limit }
    requires high { limit ≤ 2 ^ 40 }
    requires budget { (1024 ≤ budget) × (budget ≤ 2 ^ 30) }
    ensures writes { IfOk result (λ c. c.writes.items ≡ created_writes (each_by names.now forms.now)) }
    // with these pieces pending it is the session that creates the file
    ensures session { IfOk result (λ c. IsCreatedAll (each_by names.now forms.now) limit budget (led c.writes.items c.session)) }
    ensures begins { IfOk result (λ c. StandsAll (led c.writes.items c.session) (created_file (each_by names.now forms.now))) }
    // by itself it is that session once they are shown
    ensures shown { IfOk result (λ c. IsShownAll (each_by names.now forms.now) limit budget c.session) }
    // and it stands for the log in which they are
    ensures stands { IfOk result (λ c. StandsAll c.session (shown_file (each_by names.now forms.now))) }
    ensures idle { IfOk result (λ c. all_pending c.session.parts ≡ []) }
{
    let created = create_files(alloc, names, forms)?;
    let shared = Shared {
        root: created.root,
        limit,
        budget,
    };
    let first = first_place(names);
    let mut parts = Vec::new(alloc);
    add_parts(alloc, names.as_slice(), forms, &shared, first, &mut parts)?;
    Ok(NewSession {
        writes: created.writes,
        session: SeveralWriter::at_rest(parts, created.root, limit),
    })
}
