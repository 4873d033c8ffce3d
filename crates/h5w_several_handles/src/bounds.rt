//! Within which bounds a file of several datasets is created and opened.
ghost use Rattle.std.specs.Prelude.{◌≡◌, ◌≢◌, ◌≤◌, ℕ, List, IsTrue, length};
ghost use Rattle.std.specs.List.{All, AllByRecursion};
ghost use Rattle.h5w_several_creation.specs.Forms.{HasRoom};
ghost use Rattle.h5w_several_creation_laws.specs.SeveralFiles.{AllNamed};
ghost use Rattle.h5w_creation.specs.Forms.{a_name};
ghost use Rattle.h5w_options.specs.Options.{AreOptions};
ghost use Rattle.h5w_writer_handles.specs.CreatedBy.{options_of};
ghost use Rattle.h5w_several_handles.specs.Names.{AreSetBounds, AreSetOptions, budget_of, limit_of};

use crate::names::MOST;
use h5w_model::Bytes;
use h5w_names::Names;
use h5w_writer_handles::{H5wOptions, is_budget, is_limit};

/// The most bytes of the name of a dataset that is created, and of one that is opened.
const MOST_CREATED: usize = 64;

const MOST_OPENED: usize = 512;

/// The least bytes of the limit of a new file for each of its names.
const EACH: u64 = 1_024;

/// Whether none of these names is this one.
fn is_none_of(name: &[u8], others: &[Bytes]) -> bool
    ensures yes { IsTrue result → AllByRecursion (λ (other : List ℕ). name.now ≢ other) others.now }
    ensures no { AllByRecursion (λ (other : List ℕ). name.now ≢ other) others.now → IsTrue result }
{
    match others.split_first() {
        None => true,
        Some((other, rest)) => {
            if name == other.as_slice() {
                return false;
            }
            is_none_of(name, rest)
        }
    }
}

/// Whether none of these names stands twice.
fn are_named(names: &[Bytes]) -> bool
    ensures yes { IsTrue result → AllNamed names.now }
    ensures no { AllNamed names.now → IsTrue result }
{
    match names.split_first() {
        None => true,
        Some((name, rest)) => {
            if !is_none_of(name.as_slice(), rest) {
                return false;
            }
            are_named(rest)
        }
    }
}

/// Whether a file can be created with a dataset of each of these names.
fn have_room(names: &[Bytes]) -> bool
    ensures yes { IsTrue result → AllByRecursion HasRoom names.now }
    ensures no { AllByRecursion HasRoom names.now → IsTrue result }
{
    match names.split_first() {
        None => true,
        Some((name, rest)) => {
            let len = name.as_slice().len();
            if len < 1 || MOST_CREATED < len {
                return false;
            }
            have_room(rest)
        }
    }
}

/// Whether a file can be created with a dataset of each of these options.
fn are_within(options: &[H5wOptions]) -> bool
    ensures yes { IsTrue result → AllByRecursion (λ (o : H5wOptions). AreOptions (options_of a_name o)) options.now }
    ensures no { AllByRecursion (λ (o : H5wOptions). AreOptions (options_of a_name o)) options.now → IsTrue result }
{
    match options.split_first() {
        None => true,
        Some((o, rest)) => {
            if !o.are_within(b"a") {
                return false;
            }
            are_within(rest)
        }
    }
}

/// The limit and the budget of a file: those of the first of its datasets' options.
pub fn most_of(options: &[H5wOptions]) -> (u64, u64)
    ensures limit { result.0 ≡ limit_of options.now }
    ensures budget { result.1 ≡ budget_of options.now }
{
    match options.split_first() {
        None => (0, 0),
        Some((o, _)) => (o.limit, o.budget),
    }
}

/// Whether a file can be created so with datasets of these names.
pub fn are_set_options(names: &Names, options: &[H5wOptions]) -> bool
    ensures yes { IsTrue result → AreSetOptions names.now options.now }
    ensures no { AreSetOptions names.now options.now → IsTrue result }
{
    let all = names.as_slice();
    if all.len() < 1 || MOST < all.len() || options.len() != all.len() {
        return false;
    }
    let (limit, _) = most_of(options);
    if limit < EACH * all.len() as u64 {
        return false;
    }
    have_room(all) && are_named(all) && are_within(options)
}

/// Whether each of these names is short enough to be opened.
fn are_short(names: &[Bytes]) -> bool
    ensures yes { IsTrue result → All (λ (name : List ℕ). length name ≤ 512) names.now }
    ensures no { All (λ (name : List ℕ). length name ≤ 512) names.now → IsTrue result }
{
    names
        .iter()
        .all(|name| name.as_slice().len() <= MOST_OPENED)
}

/// Whether a file is opened by these names within these bounds.
pub fn are_set_bounds(names: &Names, limit: u64, budget: u64) -> bool
    ensures yes { IsTrue result → AreSetBounds names.now limit budget }
    ensures no { AreSetBounds names.now limit budget → IsTrue result }
{
    let all = names.as_slice();
    if all.len() < 1 || MOST < all.len() {
        return false;
    }
    are_short(all) && is_limit(limit) && is_budget(budget)
}
