//! The headers of a new file: that of the root group, and that of the dataset.
ghost use Rattle.std.specs.Prelude.{◌≡◌, ◌+◌, ◌<◌, ◌≤◌, ◌^◌, ◌∷◌, [], length, IfOk};
ghost use Rattle.h5w_model.specs.Datasets.{dataspace_kind, datatype_kind, fill_value_kind, layout_kind};
ghost use Rattle.h5w_model.specs.Headers.{header_bytes, msgs_bytes};
ghost use Rattle.h5w_model.specs.Links.{group_info_bytes, link_bytes, link_info_bytes, link_info_kind, link_message_kind};
ghost use Rattle.h5w_model.specs.Messages.{fill_bytes, int_type_bytes, layout_bytes, shape_bytes};
ghost use Rattle.h5w_types.specs.Fields.{int_type_of, shape_of};
ghost use Rattle.h5w_layout.specs.Layouts.{fill_of, layout_of};
ghost use Rattle.h5w_chunks.specs.Grids.{IsGrid, dataset_of};
ghost use Rattle.h5w_step_laws.specs.Spelled.{IsSpellable, message, spelled_header, spelled_messages};
ghost use Rattle.h5w_creation_laws.specs.CreatedFiles.{group_info_kind};
ghost use Rattle.h5w_creation.specs.Headers.{links_to};

use h5w_chunks::Grid;
use h5w_links::{encode_group_info, encode_link, encode_link_info};
use h5w_model::{Bytes, OutOfMemory, PIECE, Piece};
use h5w_ohdr::{Msg, Msgs, kind};
use std::alloc::Global;

/// The most bytes of a name.
const NAME: usize = 255;

/// A message with these data.
fn message(alloc: Global, kind: u8, bytes: &[u8]) -> Result<Msg, OutOfMemory>
    ensures { IfOk result (λ m. m ≡ message kind bytes.now) }
{
    let body = Bytes::from_vec(Vec::from_slice(alloc, bytes)?);
    Ok(Msg {
        kind,
        flags: 0,
        at: 0,
        body,
    })
}

/// The link info message: links are messages.
fn link_info_message(alloc: Global) -> Result<Msg, OutOfMemory>
    ensures { IfOk result (λ m. m ≡ message link_info_kind link_info_bytes) }
{
    let mut bytes = [0; 18];
    let len = encode_link_info(&mut bytes);
    message(alloc, kind::LINK_INFO, &bytes[..len])
}

/// The group info message.
fn group_info_message(alloc: Global) -> Result<Msg, OutOfMemory>
    ensures { IfOk result (λ m. m ≡ message group_info_kind group_info_bytes) }
{
    let mut bytes = [0; 2];
    let len = encode_group_info(&mut bytes);
    message(alloc, kind::GROUP_INFO, &bytes[..len])
}

/// The link of this name, of at most 255 bytes, to the header at this address (HDF5 File Format Specification, "The Link Message").
pub fn link_message(alloc: Global, name: &[u8], address: u64) -> Result<Msg, OutOfMemory>
    requires { length name.now ≤ 255 }
    ensures { IfOk result (λ m. m ≡ message link_message_kind (link_bytes name.now address)) }
{
    let mut bytes = [0; 11 + NAME];
    let len = encode_link(name, address, &mut bytes);
    message(alloc, kind::LINK, &bytes[..len])
}

/// The dataspace message.
fn shape_message(alloc: Global, grid: &Grid) -> Result<Msg, OutOfMemory>
    requires { IsGrid grid.now }
    ensures { IfOk result (λ m. m ≡ message dataspace_kind (shape_bytes (shape_of grid.now.shape))) }
{
    let mut bytes = [0; 36];
    let len = grid.shape.encode(&mut bytes);
    message(alloc, kind::DATASPACE, &bytes[..len])
}

/// The datatype message.
fn int_type_message(alloc: Global, grid: &Grid) -> Result<Msg, OutOfMemory>
    requires { IsGrid grid.now }
    ensures { IfOk result (λ m. m ≡ message datatype_kind (int_type_bytes (int_type_of grid.now.int_type))) }
{
    let mut bytes = [0; 12];
    let len = grid.int_type.encode(&mut bytes);
    message(alloc, kind::DATATYPE, &bytes[..len])
}

/// The fill value message.
fn fill_message(alloc: Global, grid: &Grid) -> Result<Msg, OutOfMemory>
    requires { IsGrid grid.now }
    ensures { IfOk result (λ m. m ≡ message fill_value_kind (fill_bytes (fill_of grid.now.fill))) }
{
    let mut bytes = [0; 14];
    let len = grid.fill.encode(&mut bytes);
    message(alloc, kind::FILL, &bytes[..len])
}

/// The layout message.
fn layout_message(alloc: Global, grid: &Grid) -> Result<Msg, OutOfMemory>
    requires { IsGrid grid.now }
    ensures { IfOk result (λ m. m ≡ message layout_kind (layout_bytes (layout_of grid.now.layout) (shape_of grid.now.shape) (int_type_of grid.now.int_type))) }
{
    let mut bytes = [0; 44];
    let len = grid.layout.encode(&grid.shape, &grid.int_type, &mut bytes);
    message(alloc, kind::LAYOUT, &bytes[..len])
}

/// The messages of a root header before its links: link info, and group info.
pub fn root_start(alloc: Global) -> Result<Msgs, OutOfMemory>
    ensures { IfOk result (λ ms. ms ≡ message link_info_kind link_info_bytes ∷ message group_info_kind group_info_bytes ∷ []) }
{
    let mut list = Msgs::new(alloc);
    list.push(link_info_message(alloc)?)?;
    list.push(group_info_message(alloc)?)?;
    Ok(list)
}

/// The messages of the root header, which links this name to the header at this address.
fn root_messages(alloc: Global, name: &[u8], address: u64) -> Result<Msgs, OutOfMemory>
    requires { length name.now ≤ 255 }
    ensures { IfOk result (λ ms. ms ≡ links_to name.now address) }
{
    let mut list = root_start(alloc)?;
    list.push(link_message(alloc, name, address)?)?;
    Ok(list)
}

/// The messages of a dataset's header.
fn dataset_messages(alloc: Global, grid: &Grid) -> Result<Msgs, OutOfMemory>
    requires { IsGrid grid.now }
    ensures { IfOk result (λ ms. ms ≡ spelled_messages (dataset_of grid.now)) }
{
    let mut list = Msgs::new(alloc);
    list.push(shape_message(alloc, grid)?)?;
    list.push(int_type_message(alloc, grid)?)?;
    list.push(fill_message(alloc, grid)?)?;
    list.push(layout_message(alloc, grid)?)?;
    Ok(list)
}

/// Chunk 0 with these messages.
fn chunk_0(list: &Msgs) -> Piece
    requires { length (header_bytes list.now) ≤ 512 }
    ensures { result ≡ header_bytes list.now }
{
    let mut bytes = [0; PIECE];
    let len = list.encode(&mut bytes);
    Piece::of(&bytes[..len])
}

/// The root header, which links this name, of at most 255 bytes, to the header at this address.
pub fn root_header(alloc: Global, name: &[u8], address: u64) -> Result<Piece, OutOfMemory>
    requires { length name.now ≤ 255 }
    ensures { IfOk result (λ p. p ≡ header_bytes (links_to name.now address)) }
{
    Ok(chunk_0(&root_messages(alloc, name, address)?))
}

/// A dataset's header.
pub fn dataset_header(alloc: Global, grid: &Grid) -> Result<Piece, OutOfMemory>
    requires grid { IsGrid grid.now }
    requires short { length (spelled_header (dataset_of grid.now)) ≤ 512 }
    ensures { IfOk result (λ p. p ≡ spelled_header (dataset_of grid.now)) }
{
    Ok(chunk_0(&dataset_messages(alloc, grid)?))
}
