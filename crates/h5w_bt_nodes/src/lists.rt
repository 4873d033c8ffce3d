//! Edits of vectors that have room.

ghost use Rattle.std.specs.Prelude.{◌≡◌, ◌+◌, ◌-◌, ◌<◌, ◌≤◌, [], take, drop, vec_len, vec_capacity};
ghost use Rattle.std.specs.List.{insert};

/// Puts an element at a place, those behind it one further.
pub fn insert_reserved<T: Drop>(items: &mut Vec<T>, at: usize, item: T)
    requires inside { at ≤ vec_len items.old }
    requires room { vec_len items.old < vec_capacity items.old }
    ensures { items.new.items ≡ insert items.old.items at item }
{
    let _ = items.insert(at, item);
}

/// Moves the elements from a place on to an empty vector.
pub fn move_tail<T: Drop>(from: &mut Vec<T>, at: usize, to: &mut Vec<T>)
    requires inside { at ≤ vec_len from.old }
    requires empty { to.old.items ≡ [] }
    requires room { vec_len from.old ≤ vec_capacity to.old + at }
    ensures stay { from.new.items ≡ take at from.old.items }
    ensures moved { to.new.items ≡ drop at from.old.items }
{
    while at < from.len() {
        let last = from.take_last();
        to.push_reserved(last);
    }
    to.reverse();
}
