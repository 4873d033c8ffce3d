//! The rows and the index address in a dataset's header, changed in place.
ghost use Rattle.std.specs.Prelude.{◌≡◌, ℕ, ◌+◌, ◌^◌, ◌<◌, ◌≤◌, nat_le, if◌then◌else◌, List, length, drop, Option, Some, None, option_map, unwrap_or, IsSome, IsOk, IfSome};
ghost use Rattle.h5w_model.specs.Headers.{messages_at, header_length, data_in_header, index_address_place, rows_in_header, index_in_header, rows_changed, with_rows_bytes};

use crate::header::{inside, prefix};
use crate::kind::{DATASPACE, LAYOUT};
use crate::walk::{before_data, first};
use h5w_bytes::{byte, put};
use h5w_sum::seal;

/// The first message of a type in a header: where its data begin, and the data.
fn data_of(chunk: &[u8], kind: u8) -> Option<(usize, &[u8])>
    requires { IsOk (messages_at chunk.now) }
    ensures found { option_map {U = ℕ × List ℕ} (λ x. (x.0, x.1.now)) result ≡ data_in_header kind chunk.now }
    ensures inside { IfSome result (λ x. x.0 + length x.1.now + 4 ≤ header_length chunk.now) }
    ensures fits { IfSome result (λ x. x.0 + length x.1.now < 2 ^ 64) }
{
    let Ok(p) = prefix(chunk) else {
        return None;
    };
    let bytes = inside(chunk, &p);
    match first(bytes, before_data(p.tracked), p.at, kind) {
        Ok(found) => found,
        Err(_) => None,
    }
}

/// How long the header is.
fn whole(chunk: &[u8]) -> usize
    requires { IsOk (messages_at chunk.now) }
    ensures exact { result ≡ header_length chunk.now }
    ensures inside { result ≤ length chunk.now }
{
    match prefix(chunk) {
        Ok(p) => p.at + p.len as usize + 4,
        Err(_) => 0,
    }
}

/// Where the size of dimension 0 stands.
#[tactic(auto, unfolding(h5w_model::specs::Headers::rows_in_header))]
fn rows_in_header(chunk: &[u8]) -> Option<usize>
    requires { IsOk (messages_at chunk.now) }
    ensures value { result ≡ rows_in_header chunk.now }
    ensures inside { IfSome result (λ place. place + 12 ≤ header_length chunk.now) }
{
    let (place, body) = data_of(chunk, DATASPACE)?;
    if body.len() < 12 {
        return None;
    }
    Some(place + 4)
}

/// Where the index address stands in a layout's data.
fn index_address_place(body: &[u8]) -> Option<usize>
    ensures { result ≡ (if nat_le (index_address_place body.now + 8) (length body.now) then Some (index_address_place body.now) else None) }
{
    if body.len() < 6 {
        return None;
    }
    let index_type = 5 + usize::from(byte(body, 3)) * usize::from(byte(body, 4));
    if body.len() <= index_type {
        return None;
    }
    let place = index_type + if byte(body, index_type) == 4 { 6 } else { 7 };
    if body.len() < place + 8 {
        return None;
    }
    Some(place)
}

/// Where the index address stands.
#[tactic(auto, unfolding(h5w_model::specs::Headers::index_in_header))]
fn index_in_header(chunk: &[u8]) -> Option<usize>
    requires { IsOk (messages_at chunk.now) }
    ensures value { result ≡ index_in_header chunk.now }
    ensures inside { IfSome result (λ place. place + 12 ≤ header_length chunk.now) }
{
    let (place, body) = data_of(chunk, LAYOUT)?;
    Some(place + index_address_place(body)?)
}

/// Changes the size of dimension 0, and the index address where one is given.
#[tactic(auto, unfolding(h5w_model::specs::Headers::rows_changed))]
fn put_rows(chunk: &mut [u8], rows: u64, index: Option<u64>)
    requires read { IsOk (messages_at chunk.old) }
    requires rows { IsSome (rows_in_header chunk.old) }
    requires index { IsSome index → IsSome (index_in_header chunk.old) }
    requires whole { header_length chunk.old ≤ length chunk.old }
    ensures changed { chunk.new ≡ rows_changed chunk.old rows index }
    ensures behind { drop (header_length chunk.old) chunk.new ≡ drop (header_length chunk.old) chunk.old }
{
    let rows_at = rows_in_header(chunk).unwrap();
    match index {
        None => put(chunk, rows_at, 8, rows),
        Some(address) => {
            let index_at = index_in_header(chunk).unwrap();
            put(chunk, rows_at, 8, rows);
            put(chunk, index_at, 8, address);
        }
    }
}

/// Changes the size of dimension 0, the index address where one is given, and the sum of the header at the front of `chunk`, and
/// leaves every other byte.
#[tactic(auto, unfolding(h5w_model::specs::Headers::with_rows_bytes))]
pub fn with_rows(chunk: &mut [u8], rows: u64, index: Option<u64>)
    requires read { IsOk (messages_at chunk.old) }
    requires rows { IsSome (rows_in_header chunk.old) }
    requires index { IsSome index → IsSome (index_in_header chunk.old) }
    ensures { chunk.new ≡ with_rows_bytes chunk.old rows index }
{
    let end = whole(chunk);
    put_rows(chunk, rows, index);
    seal(&mut chunk[..end]);
}
