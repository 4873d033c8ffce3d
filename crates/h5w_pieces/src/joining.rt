//! All pieces of a flush in one list.
ghost use Rattle.std.specs.Prelude.{◌≡◌, ◌+◌, ◌≤◌, [], ◌∷◌, ◌++◌, length, None, IsSome, vec_len, vec_capacity};
ghost use Rattle.h5w_model.specs.Numbers.{undefined};
ghost use Rattle.h5w_pieces.specs.Joined.{AreJoined, IsNaming, option_list};

use h5w_bytes::UNDEFINED;
use h5w_cache::Plan;
use h5w_model::{Piece, Write};

/// All pieces of a flush that changes no block of the index: the rows, the superblock if there is one, and last the dataset header. `rows`
/// has room for what comes behind it.
pub fn end_with(mut rows: Vec<Write>, superblock: Option<Write>, header: Write) -> Vec<Write>
    requires { vec_len rows + 2 ≤ vec_capacity rows }
    ensures exact { result.items ≡ rows.items ++ (option_list superblock ++ header ∷ []) }
    ensures room { 1 ≤ vec_capacity result }
{
    if let Some(block) = superblock {
        rows.push_reserved(block);
    }
    rows.push_reserved(header);
    rows
}

/// Adds the piece of these bytes at a place. It gets its bytes where it stands in the list.
#[inline(always)]
fn put_last(at: u64, bytes: &[u8], pieces: &mut Vec<Write>)
    requires short { length bytes.now ≤ 512 }
    requires room { vec_len pieces.old + 1 ≤ vec_capacity pieces.old }
    ensures items { pieces.new.items ≡ pieces.old.items ++ record { at = at; piece = bytes.now } ∷ [] }
    ensures room { vec_capacity pieces.new ≡ vec_capacity pieces.old }
{
    let piece = Piece::new();
    pieces.push_reserved(Write { at, piece });
    if let Some(last) = pieces.last_mut() {
        last.piece.set(bytes);
    }
}

/// The same as [`end_with`], where the header is this piece at a place. Its bytes are copied once, to where they stand in the list.
pub fn end_at(
    mut rows: Vec<Write>,
    superblock: Option<Write>,
    at: u64,
    header: &Piece,
) -> Vec<Write>
    requires { vec_len rows + 2 ≤ vec_capacity rows }
    ensures exact { result.items ≡ rows.items ++ (option_list superblock ++ record { at = at; piece = header.now } ∷ []) }
    ensures room { 1 ≤ vec_capacity result }
{
    if let Some(block) = superblock {
        rows.push_reserved(block);
    }
    put_last(at, header.as_slice(), &mut rows);
    rows
}

/// All pieces of a flush into an index that is there: the rows, copies, the superblock if there is one, the blocks in place, and last the
/// dataset header. `writes` are those of the rows, with room for what comes behind them.
pub fn join(
    mut writes: Vec<Write>,
    plan: Plan,
    superblock: Option<Write>,
    header: Write,
) -> Vec<Write>
    requires { vec_len writes + (vec_len plan.copies + vec_len plan.in_place + 2) ≤ vec_capacity writes }
    ensures exact { result.items ≡ writes.items ++ (plan.copies.items ++ (option_list superblock ++ (plan.in_place.items ++ header ∷ []))) }
    ensures room { 1 ≤ vec_capacity result }
{
    let Plan {
        mut copies,
        mut in_place,
        ..
    } = plan;
    writes.append(&mut copies).unwrap();
    if let Some(block) = superblock {
        writes.push_reserved(block);
    }
    writes.append(&mut in_place).unwrap();
    writes.push_reserved(header);
    writes
}

/// All pieces of a flush that makes the index: the rows, copies, the index's blocks in place, the superblock, and last the dataset header, which
/// names the index.
fn join_start(
    mut pieces: Vec<Write>,
    plan: Plan,
    superblock: Option<Write>,
    header: Write,
) -> Vec<Write>
    requires { vec_len pieces + (vec_len plan.copies + vec_len plan.in_place + 2) ≤ vec_capacity pieces }
    ensures items { result.items ≡ pieces.items ++ (plan.copies.items ++ (plan.in_place.items ++ (option_list superblock ++ header ∷ []))) }
    ensures room { 1 ≤ vec_capacity result }
{
    let Plan {
        mut copies,
        mut in_place,
        ..
    } = plan;
    pieces.append(&mut copies).unwrap();
    pieces.append(&mut in_place).unwrap();
    if let Some(block) = superblock {
        pieces.push_reserved(block);
    }
    pieces.push_reserved(header);
    pieces
}

/// Pieces that end with the superblock, the last block in place, and the header.
fn join_behind(
    mut pieces: Vec<Write>,
    mut copies: Vec<Write>,
    mut front: Vec<Write>,
    superblock: Option<Write>,
    top: Write,
    header: Write,
) -> Vec<Write>
    requires { vec_len pieces + (vec_len copies + vec_len front + 3) ≤ vec_capacity pieces }
    ensures items { result.items ≡ pieces.items ++ (copies.items ++ (front.items ++ (option_list superblock ++ top ∷ header ∷ []))) }
    ensures room { 1 ≤ vec_capacity result }
{
    pieces.append(&mut copies).unwrap();
    pieces.append(&mut front).unwrap();
    if let Some(block) = superblock {
        pieces.push_reserved(block);
    }
    pieces.push_reserved(top);
    pieces.push_reserved(header);
    pieces
}

/// All pieces of a flush that makes an array's index block: the rows, copies, the index block, the superblock, the array's header, and last the
/// dataset header.
fn join_block(
    mut pieces: Vec<Write>,
    plan: Plan,
    superblock: Option<Write>,
    header: Write,
) -> Vec<Write>
    requires { vec_len pieces + (vec_len plan.copies + vec_len plan.in_place + 2) ≤ vec_capacity pieces }
    ensures joined { AreJoined None pieces.items plan.copies.items plan.in_place.items (option_list superblock) header result.items }
    ensures room { 1 ≤ vec_capacity result }
{
    let Plan {
        mut copies,
        mut in_place,
        ..
    } = plan;
    match in_place.pop() {
        Some(top) => join_behind(pieces, copies, in_place, superblock, top, header),
        None => {
            pieces.append(&mut copies).unwrap();
            end_with(pieces, superblock, header)
        }
    }
}

/// All pieces of a first flush, the dataset header last. `naming` is the address that this is to name: the superblock comes behind all blocks in
/// place then. Where it is to name none the array's header names its index block, and comes behind the superblock. `pieces` are those of the
/// rows, with room for what comes behind them.
pub fn join_first(
    pieces: Vec<Write>,
    plan: Plan,
    superblock: Option<Write>,
    header: Write,
    naming: Option<u64>,
) -> Vec<Write>
    requires { vec_len pieces + (vec_len plan.copies + vec_len plan.in_place + 2) ≤ vec_capacity pieces }
    ensures joined { AreJoined naming pieces.items plan.copies.items plan.in_place.items (option_list superblock) header result.items }
    ensures room { 1 ≤ vec_capacity result }
{
    match naming {
        Some(_) => join_start(pieces, plan, superblock, header),
        None => join_block(pieces, plan, superblock, header),
    }
}

/// The address that the dataset header is to name: `at`, where an index is made that the layout does not name yet. `address` is the layout's,
/// undefined where it names none.
pub fn naming(address: u64, at: u64) -> Option<u64>
    ensures names { IsNaming address at result }
    ensures unnamed { IsSome result → address ≡ undefined }
{
    if address == UNDEFINED { Some(at) } else { None }
}
