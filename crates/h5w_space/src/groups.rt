//! The free places by their sizes: places of one size stand side by side, so a place of a size is found and
//! taken in as many steps as there are sizes.

ghost use Rattle.std.specs.Prelude.{◌≡◌, ◌≢◌, ℕ, ◌+◌, ◌-◌, ◌<◌, ◌≤◌, ◌^◌, ◌∷◌, ◌++◌, [], length, take, drop, vec_len, vec_capacity, slice_index, false, IfSome, IfNone, IsSomeAnd};
ghost use Rattle.std.specs.List.{All, HoldsAt};
ghost use Rattle.std.specs.List.Sorted.{IsPermutation};
ghost use Rattle.h5w_space.specs.Groups.{IsGroup, IsGrouped, laid, laid_less, sizes};
ghost use Rattle.h5w_space.specs.Space.{has_size};

use crate::Extent;

/// `count` places of `size` bytes, side by side.
#[derive(Clone, Copy)]
pub struct Group {
    pub size: u64,
    pub count: usize,
}

/// A group by its index among the groups, and where its places end among the places.
#[derive(Clone, Copy)]
pub struct Spot {
    pub index: usize,
    pub end: usize,
}

/// The group of this size.
pub fn find(groups: &[Group], size: u64) -> Option<Spot>
    requires { length (laid groups.now) < 2 ^ 64 }
    ensures found { IfSome result (λ s. IsGroup groups.now size s.index s.end) }
    ensures none { IfNone result (All (λ g. g.size ≢ size) groups.now) }
{
    let mut end = 0;
    for (index, group) in groups.iter().enumerate() {
        end += group.count;
        if group.size == size {
            return Some(Spot { index, end });
        }
    }
    None
}

/// Moves the place at `at` behind those of the groups, which follow it: each of them moves up by one.
fn to_back(groups: &[Group], places: &mut [Extent], at: usize)
    requires inside { at < length places.old }
    requires grouped { drop (at + 1) (sizes places.old) ≡ laid groups.now }
    ensures order { IsPermutation places.old places.new }
    ensures moved { sizes places.new
        ≡ take at (sizes places.old) ++ laid groups.now ++ slice_index (sizes places.old) at ∷ [] }
{
    let mut hole = at;
    for group in groups {
        places.swap(hole, hole + group.count);
        hole += group.count;
    }
}

/// Moves the last place before those of the groups, which begin at `at`: each of them moves down by one.
fn to_front(groups: &[Group], places: &mut [Extent], at: usize)
    requires inside { at < length places.old }
    requires grouped { drop at (take (length places.old - 1) (sizes places.old)) ≡ laid groups.now }
    requires filled { All (λ g. 0 < g.count) groups.now }
    ensures order { IsPermutation places.old places.new }
    ensures moved { sizes places.new
        ≡ take at (sizes places.old) ++ slice_index (sizes places.old) (length places.old - 1) ∷ laid groups.now }
{
    let last = places.len() - 1;
    let mut first = at;
    for group in groups {
        places.swap(first, last);
        first += group.count;
    }
}

/// One place less in this group, which goes where it had one alone.
fn shrink(groups: &mut Vec<Group>, index: usize)
    requires inside { index < vec_len groups.old }
    requires filled { All (λ g. 0 < g.count) groups.old.items }
    ensures laid { HoldsAt (λ g. laid groups.new.items ≡ laid_less groups.old.items index g) groups.old.items index }
    ensures filled { All (λ g. 0 < g.count) groups.new.items }
    ensures len { vec_len groups.new ≤ vec_len groups.old }
    ensures capacity { vec_capacity groups.new ≡ vec_capacity groups.old }
{
    if groups[index].count == 1 {
        groups.remove(index);
    } else {
        groups[index].count -= 1;
    }
}

/// Takes the last place of this group out.
fn pull(groups: &mut Vec<Group>, places: &mut Vec<Extent>, spot: Spot, size: u64) -> Option<Extent>
    requires grouped { IsGrouped groups.old.items places.old.items }
    requires here { IsGroup groups.old.items size spot.index spot.end }
    ensures taken { IsSomeAnd result (λ p. (p.size ≡ size) × IsPermutation places.old.items (p ∷ places.new.items)) }
    ensures grouped { IsGrouped groups.new.items places.new.items }
    ensures groups_len { vec_len groups.new ≤ vec_len groups.old }
    ensures len { vec_len places.new ≤ vec_len places.old }
    ensures groups_capacity { vec_capacity groups.new ≡ vec_capacity groups.old }
    ensures capacity { vec_capacity places.new ≡ vec_capacity places.old }
{
    to_back(&groups[spot.index + 1..], places, spot.end - 1);
    shrink(groups, spot.index);
    places.pop()
}

/// Takes a place of this size out, where there is one.
pub fn take(groups: &mut Vec<Group>, places: &mut Vec<Extent>, size: u64) -> Option<Extent>
    requires grouped { IsGrouped groups.old.items places.old.items }
    ensures taken { IfSome result (λ p. (p.size ≡ size) × IsPermutation places.old.items (p ∷ places.new.items)) }
    ensures none { IfNone result (has_size size places.old.items ≡ false) }
    ensures left { IfNone result (places.new.items ≡ places.old.items) }
    ensures grouped { IsGrouped groups.new.items places.new.items }
    ensures groups_len { vec_len groups.new ≤ vec_len groups.old }
    ensures len { vec_len places.new ≤ vec_len places.old }
    ensures groups_capacity { vec_capacity groups.new ≡ vec_capacity groups.old }
    ensures capacity { vec_capacity places.new ≡ vec_capacity places.old }
{
    let spot = find(groups, size)?;
    pull(groups, places, spot, size)
}

/// Puts a place into the group of its size, a new one where there is none.
fn put(groups: &mut Vec<Group>, places: &mut Vec<Extent>, place: Extent)
    requires grouped { IsGrouped groups.old.items places.old.items }
    requires groups_room { vec_len groups.old < vec_capacity groups.old }
    requires room { vec_len places.old < vec_capacity places.old }
    ensures order { IsPermutation (place ∷ places.old.items) places.new.items }
    ensures grouped { IsGrouped groups.new.items places.new.items }
    ensures groups_len { vec_len groups.new ≤ vec_len groups.old + 1 }
    ensures len { vec_len places.new ≡ vec_len places.old + 1 }
    ensures groups_capacity { vec_capacity groups.new ≡ vec_capacity groups.old }
    ensures capacity { vec_capacity places.new ≡ vec_capacity places.old }
{
    places.push_reserved(place);
    match find(groups, place.size) {
        Some(spot) => {
            to_front(&groups[spot.index + 1..], places, spot.end);
            groups[spot.index].count += 1;
        }
        None => groups.push_reserved(Group {
            size: place.size,
            count: 1,
        }),
    }
}

/// Puts each of these places into the group of its size.
pub fn put_all(groups: &mut Vec<Group>, places: &mut Vec<Extent>, more: &[Extent])
    requires grouped { IsGrouped groups.old.items places.old.items }
    requires groups_room { vec_len groups.old + length more.now ≤ vec_capacity groups.old }
    requires room { vec_len places.old + length more.now ≤ vec_capacity places.old }
    ensures order { IsPermutation (places.old.items ++ more.now) places.new.items }
    ensures grouped { IsGrouped groups.new.items places.new.items }
    ensures groups_len { vec_len groups.new ≤ vec_len groups.old + length more.now }
    ensures len { vec_len places.new ≡ vec_len places.old + length more.now }
    ensures groups_capacity { vec_capacity groups.new ≡ vec_capacity groups.old }
    ensures capacity { vec_capacity places.new ≡ vec_capacity places.old }
{
    for place in more {
        put(groups, places, *place);
    }
}
