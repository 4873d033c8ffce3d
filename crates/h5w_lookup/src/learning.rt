//! What a reader knows once a call for rows is answered.
ghost use Rattle.std.specs.Prelude.{◌≡◌, ◌+◌, ◌-◌, ◌≤◌, ◌<◌, ◌^◌, ℕ, List, take, length, Some, IfOk, OnOk, OnErr};
ghost use Rattle.std.specs.Vec.{vec_len, vec_capacity};
ghost use Rattle.h5w_model.specs.Calls.{known_table};
ghost use Rattle.h5w_model.specs.Tables.{needed};
ghost use Rattle.h5w_lookup.specs.Attempts.{known_of, reading_of};
ghost use Rattle.h5w_lookup.specs.Descents.{reading_news};
ghost use Rattle.h5w_dataset.specs.Described.{described_of};
ghost use Rattle.h5w_lookup.specs.Unknown.{absent_from, needed_with, put_in, with_found};

use crate::known::Known;
use crate::lookup::address_at;
use crate::news::News;
use crate::recall::{is_cut_alike, unknown};
use h5w_bytes::UNDEFINED;
use h5w_model::OutOfMemory;
use std::alloc::Global;

/// The numbers of the needed chunks that were not found either.
fn still_absent(
    alloc: Global,
    known: &Option<Known>,
    news: &News,
) -> Result<Vec<usize>, OutOfMemory>
    ensures { IfOk result (λ absent. absent.items ≡ absent_from 0 (needed_with (known_table (known_of known.now) (described_of news.now.dataset)) (described_of news.now.dataset) news.now.found.items)) }
{
    let needed = news.dataset.needed() as usize;
    let mut absent = Vec::new(alloc);
    for n in 0..news.found.len() {
        if address_at(&news.found, n) == UNDEFINED {
            let number = unknown(known, &news.dataset, n);
            if number < needed {
                absent.push(number)?;
            }
        }
    }
    Ok(absent)
}

/// A table with addresses at the numbers of its absent chunks, as far as both go.
fn put_at(mut table: Vec<u64>, absent: &[usize], found: &[u64]) -> Vec<u64>
    requires { absent.now ≡ absent_from 0 table.items }
    ensures items { result.items ≡ put_in table.items (take (length absent.now) found.now) }
    ensures same { vec_len result ≡ vec_len table }
    ensures room { vec_capacity result ≡ vec_capacity table }
{
    for n in 0..absent.len().min(found.len()) {
        table[absent[n]] = found[n];
    }
    table
}

/// A table with the addresses of its absent chunks, and of more behind it. There is room for these.
fn joined(table: Vec<u64>, absent: &[usize], found: &[u64]) -> Vec<u64>
    requires listed { absent.now ≡ absent_from 0 table.items }
    requires room { vec_len table + (length found.now - length absent.now) ≤ vec_capacity table }
    ensures { result.items ≡ with_found table.items found.now }
{
    let mut table = put_at(table, absent, found);
    if found.len() < absent.len() {
        table.truncate(absent[found.len()]);
        return table;
    }
    match table.extend_from_slice(&found[absent.len()..]) {
        Ok(()) => table,
        Err(_) => unreachable!(),
    }
}

/// What is known by news alone, with the numbers of the chunks that are not there.
fn by_news(news: News, absent: Vec<usize>) -> Known
    requires { absent.items ≡ absent_from 0 (take (needed (described_of news.dataset)) news.found.items) }
    ensures { reading_of result ≡ record { place = news.place; dataset = described_of news.dataset; table = take (needed (described_of news.dataset)) news.found.items } }
{
    let News {
        place,
        dataset,
        found: mut table,
        view,
        front,
    } = news;
    table.truncate(dataset.needed() as usize);
    Known {
        place,
        dataset,
        table,
        absent,
        view,
        front,
    }
}

/// What is known with the news, where the rows are cut alike and there is room.
fn with_news(old: Known, news: News, absent: Vec<usize>) -> Known
    requires listed { absent.items ≡ absent_from 0 (needed_with old.table.items (described_of news.dataset) news.found.items) }
    requires room { vec_len old.table + (length news.found.items - length old.absent.items) ≤ vec_capacity old.table }
    ensures { reading_of result ≡ record { place = news.place; dataset = described_of news.dataset; table = needed_with old.table.items (described_of news.dataset) news.found.items } }
{
    let mut table = joined(old.table, old.absent.as_slice(), news.found.as_slice());
    table.truncate(news.dataset.needed() as usize);
    Known {
        place: news.place,
        dataset: news.dataset,
        table,
        absent,
        view: news.view,
        front: news.front.or(old.front),
    }
}

/// Takes up what a call for rows found. Want of memory leaves what was known.
pub fn learn(alloc: Global, known: &mut Option<Known>, news: News) -> Result<(), OutOfMemory>
    ensures learnt { OnOk result (known_of known.new ≡ Some (reading_news (known_of known.old) news)) }
    ensures err { OnErr result (known_of known.new ≡ known_of known.old) }
{
    let absent = still_absent(alloc, known, &news)?;
    let Some(mut old) = known.take() else {
        *known = Some(by_news(news, absent));
        return Ok(());
    };
    if !is_cut_alike(&old.dataset, &news.dataset) {
        *known = Some(by_news(news, absent));
        return Ok(());
    }
    let more = news.found.len().saturating_sub(old.absent.len());
    if old.table.reserve(more).is_err() {
        *known = Some(old);
        return Err(OutOfMemory);
    }
    *known = Some(with_news(old, news, absent));
    Ok(())
}
