//! The blocks of one dataset, wherever it stands.
ghost use Rattle.std.specs.Prelude.{◌≡◌, ◌+◌, ◌<◌, ◌≤◌, ◌^◌, ◌++◌, length, map, IfOk, OnOk};
ghost use Rattle.h5w_step_laws.specs.Spelled.{spelled_header};
ghost use Rattle.h5w_creation_laws.specs.CreatedFiles.{block_write, described_of};
ghost use Rattle.h5w_creation.specs.Forms.{IsForm};
ghost use Rattle.h5w_several_creation_laws.specs.SeveralFiles.{end_behind, set_at};
ghost use Rattle.h5w_several_creation.specs.Forms.{any_by, with_address};

use crate::index::put_index;
use h5w_bytes::put;
use h5w_creation::{Form, create_file, index_len};
use h5w_model::{OutOfMemory, PIECE, Piece, Write};
use h5w_sum::seal;
use std::alloc::Global;

/// The dataset header of a file of one dataset of this form.
fn header_of(alloc: Global, form: &Form) -> Result<Piece, OutOfMemory>
    requires { IsForm form.now }
    ensures { IfOk result (λ p. p ≡ spelled_header (described_of (any_by form.now))) }
{
    let file = create_file(alloc, b"a", form)?;
    Ok(file.header)
}

/// Writes the address of the index, which stands before the sum, into a dataset header.
fn put_address(header: &mut [u8], address: u64)
    requires { 12 ≤ length header.old }
    ensures { header.new ≡ with_address header.old address }
{
    let at = header.len() - 12;
    put(header, at, 8, address);
    seal(header);
}

/// The dataset header with another address of the index.
fn header_at(header: &Piece, address: u64) -> Piece
    requires { 12 ≤ length header.now }
    ensures { result ≡ with_address header.now address }
{
    let mut bytes = [0; PIECE];
    let chunk = &mut bytes[..header.len()];
    chunk.copy_from_slice(header.as_slice());
    put_address(chunk, address);
    Piece::of(chunk)
}

/// Adds the pieces of a dataset of this form, whose header stands at `place`. Answers where its blocks end.
pub fn put_set(
    alloc: Global,
    form: &Form,
    place: u64,
    writes: &mut Vec<Write>,
) -> Result<u64, OutOfMemory>
    requires form { IsForm form.now }
    requires place { place < 2 ^ 32 }
    ensures end { IfOk result (λ end. end ≡ end_behind place (any_by form.now)) }
    ensures writes { OnOk result (writes.new.items ≡ writes.old.items ++ map block_write (set_at place (any_by form.now))) }
{
    let header = header_of(alloc, form)?;
    let index = place + header.len() as u64;
    put_index(alloc, form.index, index, writes)?;
    writes.push(Write {
        at: place,
        piece: header_at(&header, index),
    })?;
    Ok(index + index_len(form.index))
}
