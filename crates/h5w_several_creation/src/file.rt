//! A new file of several datasets, and the pieces that make it.
ghost use Rattle.std.specs.Prelude.{◌≡◌, ◌+◌, ◌<◌, ◌≤◌, ◌^◌, ◌∷◌, ◌++◌, [], length, map, IfOk, OnOk};
ghost use Rattle.std.specs.List.{AllByRecursion};
ghost use Rattle.h5w_model.specs.Superblock.{super_bytes};
ghost use Rattle.h5w_creation_laws.specs.CreatedFiles.{block_write, root_place};
ghost use Rattle.h5w_creation.specs.Forms.{IsForm};
ghost use Rattle.h5w_several_creation_laws.specs.SeveralFiles as files;
ghost use Rattle.h5w_several_creation.specs.Forms.{AreForms, AreNames, HasRoom, each_by};

use crate::root::{first_place, put_root};
use crate::set::put_set;
use h5w_creation::{Form, OPEN, link_message, root_start, super_write, superblock};
use h5w_model::{Bytes, OutOfMemory, Super, Write};
use h5w_names::Names;
use h5w_ohdr::Msgs;
use std::alloc::Global;

/// A new file of several datasets: its superblock, and the pieces that make it: those of each dataset, first those of its index and then its
/// header, the root header, and last the superblock, by which a reader finds the file.
#[derive(Drop)]
pub struct Creations {
    pub root: Super,
    pub writes: Vec<Write>,
}

/// The write that closes a new file which ends there: its superblock without the flags of writers.
pub fn closing(end: u64) -> Write
    ensures { result ≡ record { at = 0; piece = super_bytes (record { version = 3; flags = 0; end = end; root = root_place }) } }
{
    super_write(&superblock(0, end))
}

/// Adds the pieces of the datasets of these names, each by the form at its place, the first of which stands at `first`, and the links to them.
/// Answers where they end.
fn put_sets(
    alloc: Global,
    names: &[Bytes],
    forms: &[Form],
    first: u64,
    links: &mut Msgs,
    writes: &mut Vec<Write>,
) -> Result<u64, OutOfMemory>
    requires forms { AllByRecursion IsForm forms.now }
    requires names { AllByRecursion HasRoom names.now }
    requires low { files.end_from first (each_by names.now forms.now) ≤ 8192 }
    ensures end { IfOk result (λ end. end ≡ files.end_from first (each_by names.now forms.now)) }
    ensures links { OnOk result (links.new ≡ links.old ++ files.links_from first (each_by names.now forms.now)) }
    ensures writes { OnOk result (writes.new.items ≡ writes.old.items ++ map block_write (files.sets_from first (each_by names.now forms.now))) }
{
    let (Some((name, rest)), Some((form, others))) = (names.split_first(), forms.split_first())
    else {
        return Ok(first);
    };
    links.push(link_message(alloc, name.as_slice(), first)?)?;
    let next = put_set(alloc, form, first, writes)?;
    put_sets(alloc, rest, others, next, links, writes)
}

/// A new file with a dataset under each of these names, in their order, each by the form at its place.
pub fn create_files(alloc: Global, names: &Names, forms: &[Form]) -> Result<Creations, OutOfMemory>
    requires forms { AreForms names.now forms.now }
    requires names { AreNames names.now }
    ensures root { IfOk result (λ c. c.root ≡ files.super_of 5 (each_by names.now forms.now)) }
    ensures writes { IfOk result (λ c. c.writes.items ≡ files.created_writes (each_by names.now forms.now)) }
{
    let mut writes = Vec::new(alloc);
    let mut links = root_start(alloc)?;
    let first = first_place(names);
    let end = put_sets(
        alloc,
        names.as_slice(),
        forms,
        first,
        &mut links,
        &mut writes,
    )?;
    put_root(&links, &mut writes)?;
    let root = superblock(OPEN, end);
    writes.push(super_write(&root))?;
    Ok(Creations { root, writes })
}
