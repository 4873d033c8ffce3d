//! By what options create a file.
ghost use Rattle.std.specs.Prelude.{◌≡◌, if◌then◌else◌};
ghost use Rattle.h5w_model.specs.declared.cell.IndexKind.TheVariants.{Array, Tree};
ghost use Rattle.h5w_options.specs.Options.{AreOptions, columns_in, grows_in, rank_in, width_in};
ghost use Rattle.h5w_creation.specs.Forms.{IsForm, created_by};
ghost use Rattle.h5w_creation.specs.NewFiles.{IsFillOf, new_file};

use crate::form::Form;
use h5w_chunks::{Fill, IndexKind};
use h5w_options::Options;
use h5w_types::bytes_of;

/// The fill of a new file: the cell of its value.
fn fill_of(options: &Options) -> Fill
    requires { AreOptions options.now }
    ensures { IsFillOf result options.now }
{
    match options.fill {
        Some(v) => Fill {
            value: bytes_of(v, &options.int_type),
        },
        None => Fill { value: None },
    }
}

/// How many dimensions there are, and the columns of a row and of a chunk.
fn sides_of(columns: Option<(u64, u64)>) -> (u8, u64, u64)
    ensures rank { result.0 ≡ rank_in columns }
    ensures columns { result.1 ≡ columns_in columns }
    ensures width { result.2 ≡ width_in columns }
{
    match columns {
        Some((columns, width)) => (2, columns, width),
        None => (1, 1, 1),
    }
}

/// Whether there is a second dimension that grows.
fn grows(columns: Option<(u64, u64)>, fixed: bool) -> bool
    ensures { result ≡ grows_in columns fixed }
{
    match columns {
        Some(_) => !fixed,
        None => false,
    }
}

/// By what a chunk is found.
fn index_for(growing: bool) -> IndexKind
    ensures { result ≡ if growing then Tree else Array }
{
    if growing {
        IndexKind::Tree
    } else {
        IndexKind::Array
    }
}

/// By what these options create a file: one dimension, or two of which the second is fixed, by an extensible array; or two that grow, by a
/// version 2 B-tree.
pub fn form_of(options: &Options) -> Form
    requires { AreOptions options.now }
    ensures form { IsForm result }
    ensures file { created_by options.now.name result ≡ new_file options.now }
{
    let (rank, columns, width) = sides_of(options.columns);
    let growing = grows(options.columns, options.fixed);
    Form {
        int_type: options.int_type,
        fill: fill_of(options),
        chunk: (options.chunk_rows, width),
        rank,
        columns,
        growing,
        index: index_for(growing),
    }
}
