//! The plan of a tree's changed nodes.

ghost use Rattle.std.specs.Prelude.{◌≡◌, ℕ, ◌+◌, ◌<◌, ◌≤◌, ◌^◌, ◌++◌, ◌∷◌, [], length, IfErr, IfOk, OnErr, OnOk, vec_capacity};
ghost use Rattle.std.specs.List.{All};
ghost use Rattle.h5w_cache.specs.Plans.{IfFull, IsRefused};
ghost use Rattle.h5w_model.specs.Trees.{bthd_bytes};
ghost use Rattle.h5w_bt.specs.Fields.{bthd_of};
ghost use Rattle.h5w_bt.specs.Parts.{IsHeader};
ghost use Rattle.h5w_bt_index.specs.Index.{IsShaped, index_of};
ghost use Rattle.h5w_bt_nodes.specs.Blocks.{AllRead, changes, news, stood, writes_of, written};
ghost use Rattle.h5w_bt_index.specs.Plans.{AreNodeMoves, AreTaken, HasNoPlace, IsBegun, IsNodeMove, TookSome, header_writes, olds, planned};

use crate::root::Root;
use h5w_bt::{Bthd, Child, NODE};
use h5w_bt_nodes::PIECES;
use h5w_cache::{Move, Plan, PlanError, retire_all, take_place};
use h5w_model::{OutOfMemory, Piece, Write};
use h5w_space::{Full, Places};
use std::alloc::Global;
use std::marker::Model;

/// A flush of a tree's changed nodes that is begun: the moves of its plan, with their writes.
///
/// `begin` does all that can be refused, and changes nothing but the places that it is handed; `finish` cannot fail, and makes it so. For a
/// tree that is places, memory, and the bytes of the nodes, since to spell them takes memory.
#[derive(Drop)]
pub struct NodeFlush {
    plan: Plan,
}

impl Model for NodeFlush {
    ghost use Rattle.h5w_bt_index.specs.Plans.{Start};

    ghost Value = { Start };

    ghost view = { λ b. record {
      moves = b.plan.moves.items;
      copies = b.plan.copies.items;
      in_place = b.plan.in_place.items;
    } };
}

impl NodeFlush {
    /// How many pieces the writes of the changed nodes will be.
    pub fn copies(&self) -> usize
        ensures { result ≡ length self.now.copies }
    {
        self.plan.copies.len()
    }

    /// How many pieces the writes of the header will be.
    pub fn in_place(&self) -> usize
        ensures { result ≡ length self.now.in_place }
    {
        self.plan.in_place.len()
    }
}

/// A node at a place gets a new one.
fn move_from(old: u64, places: &mut Places) -> Result<Move, Full>
    ensures old { IfOk result (λ m. m.old ≡ old) }
    ensures ok { IfOk result (λ m. IsNodeMove places.old m places.new) }
    ensures refused { IfErr result (λ e. IsRefused places.old 2048 e) }
    ensures kept { OnErr result (places.new ≡ places.old) }
{
    let new = take_place(NODE as u64, places)?;
    Ok(Move {
        number: 0,
        old,
        new,
        len: NODE as u64,
        in_place: false,
    })
}

/// Nodes at these places get new ones.
fn move_all(stood: &[u64], moves: &mut Vec<Move>, places: &mut Places) -> Result<(), Full>
    requires empty { moves.old.items ≡ [] }
    requires room { length stood.now ≤ vec_capacity moves.old }
    ensures old { OnOk result (olds moves.new.items ≡ stood.now) }
    ensures moves { OnOk result (AreNodeMoves places.old moves.new.items places.new) }
    ensures full { IfErr result (HasNoPlace (length stood.now) places.old) }
    ensures left { OnErr result (TookSome places.old places.new) }
{
    for old in stood {
        let node_move = move_from(*old, places)?;
        moves.push_reserved(node_move);
    }
    Ok(())
}

/// The moves of the changed nodes, whose places are taken; there is room to retire those that they leave.
fn moves_of(root: &Root, alloc: Global, places: &mut Places) -> Result<Vec<Move>, PlanError>
    ensures taken { IfOk result (λ v. AreTaken (index_of root.now) places.old v.items places.new) }
    ensures full { IfErr result (λ e. IfFull e (HasNoPlace (changes (index_of root.now).depth (index_of root.now).root) places.old)) }
    ensures left { OnErr result (TookSome places.old places.new) }
{
    let mut stood = Vec::new(alloc);
    root.stood(&mut stood)?;
    let mut moves = Vec::with_capacity(alloc, stood.len())?;
    move_all(&stood, &mut moves, places).map_err(PlanError::Full)?;
    places.reserve(moves.len() as u64)?;
    Ok(moves)
}

/// What the header says where this is the pointer to the root.
fn header(depth: u64, root: Child) -> Bthd
    ensures { bthd_of result ≡ record { depth = depth; root = root.address; records = root.records; total = root.total } }
{
    Bthd {
        depth,
        root: root.address,
        records: root.records,
        total: root.total,
    }
}

/// Adds the write of a header at its place.
fn put_header(place: u64, header: Bthd, out: &mut Vec<Write>) -> Result<(), OutOfMemory>
    requires { IsHeader (bthd_of header) }
    ensures { OnOk result (out.new.items ≡ out.old.items ++ record { at = place; piece = bthd_bytes (bthd_of header) } ∷ []) }
{
    let mut bytes = [0; Bthd::LEN];
    header.encode(&mut bytes);
    out.push(Write {
        at: place,
        piece: Piece::of(&bytes),
    })?;
    Ok(())
}

/// The writes of the changed nodes at the new places of these moves, and of the header.
fn writes_at(
    root: &Root,
    place: u64,
    moves: &Vec<Move>,
) -> Result<(Vec<Write>, Vec<Write>), OutOfMemory>
    requires shape { IsShaped (index_of root.now) }
    requires enough { changes (index_of root.now).depth (index_of root.now).root ≤ length moves.now.items }
    requires ends { All (λ (p : ℕ). p + 2048 < 2 ^ 64) (news moves.now.items) }
    ensures copies { IfOk result (λ r. r.0.items ≡ writes_of (written (index_of root.now).depth (news moves.now.items) (index_of root.now).root)) }
    ensures in_place { IfOk result (λ r. r.1.items ≡ header_writes place (index_of root.now) (planned (news moves.now.items) (index_of root.now))) }
    ensures reads { OnOk result (AllRead (index_of root.now).depth (news moves.now.items) (index_of root.now).root) }
{
    let pieces = moves.len().saturating_mul(PIECES);
    let mut copies = Vec::with_capacity(*moves.allocator(), pieces)?;
    let mut in_place = Vec::new(*moves.allocator());
    let (_, pointer) = root.write(moves, &mut copies)?;
    if !root.is_clean() {
        put_header(place, header(root.depth(), pointer), &mut in_place)?;
    }
    Ok((copies, in_place))
}

/// All that a plan of the changed nodes needs, on these places.
pub fn begin(
    root: &Root,
    place: u64,
    alloc: Global,
    places: &mut Places,
) -> Result<NodeFlush, PlanError>
    requires { IsShaped (index_of root.now) }
    ensures begun { IfOk result (λ b. IsBegun place (index_of root.now) places.old b places.new) }
    ensures full { IfErr result (λ e. IfFull e (HasNoPlace (changes (index_of root.now).depth (index_of root.now).root) places.old)) }
    ensures left { OnErr result (TookSome places.old places.new) }
{
    let moves = moves_of(root, alloc, places)?;
    let (copies, in_place) = writes_at(root, place, &moves)?;
    retire_all(&moves, places);
    let plan = Plan {
        moves,
        copies,
        in_place,
    };
    Ok(NodeFlush { plan })
}

/// The plan that was begun of this tree; all nodes are clean from then on.
pub fn finish(root: &mut Root, begun: NodeFlush) -> Plan
    requires old { olds begun.moves ≡ stood (index_of root.old).depth (index_of root.old).root }
    ensures moves { result.moves.items ≡ begun.moves }
    ensures copies { result.copies.items ≡ begun.copies }
    ensures in_place { result.in_place.items ≡ begun.in_place }
    ensures planned { index_of root.new ≡ planned (news begun.moves) (index_of root.old) }
{
    let NodeFlush { plan } = begun;
    root.settle(&plan.moves);
    plan
}
