ghost use Rattle.std.specs.Prelude.{◌≡◌, ◌≤◌, ◌++◌, ◌+◌, ℕ, List, [], ◌∷◌, ℤ, length, take, drop, true, false, Some, Ok, Err, IfOk, OnOk, OnErr, IfSome, IsTrue, MatchBool};
ghost use Rattle.h5w_model.specs.Causes.{Rose};
ghost use Rattle.h5w_text.specs.Streams.{Took};
ghost use Rattle.h5w_input.specs.LinesAhead.{Cut, Keeps, Passed, StandNext, Stays, lines_ahead};
ghost use Rattle.h5w_input.specs.Scripts.{number_line_of};

use crate::line::{LineError, Partial};
use crate::number::line_value;
use crate::places::first_place;
use crate::script::fill_numbers;
use h5w_model::OutOfMemory;
use h5w_text::{Failed, Source};
use std::alloc::Global;
use std::marker::Model;

/// How many bytes are asked for at once.
const BUFFER: usize = 8192;

/// Bytes that were taken from a source and not given yet, and how many more may be taken.
#[derive(Drop)]
pub struct Intake {
    buffer: Vec<u8>,
    at: usize,
    end: usize,
    more: u64,
    limit: u64,
}

impl Model for Intake {
    ghost use Rattle.std.specs.Prelude.{◌≤◌, slice_range, length};
    ghost use Rattle.h5w_input.specs.LinesAhead.{IntakeView};

    ghost Value = { IntakeView };

    ghost view = { λ i. record { held = slice_range i.buffer.items i.at i.end; more = i.more; limit = i.limit } };

    ghost invariant = { λ i. (i.at ≤ i.end) × (i.end ≤ length i.buffer.items) };
}

/// How many bytes to ask for: no more than may be taken, and one where none may.
fn how_many(more: u64) -> usize
    ensures some { 1 ≤ result }
    ensures most { result ≤ 8192 }
    ensures within { 1 ≤ more → result ≤ more }
    ensures one { more ≡ 0 → result ≡ 1 }
{
    if more == 0 {
        1
    } else {
        more.min(BUFFER as u64) as usize
    }
}

fn make_room(buffer: &mut Vec<u8>) -> Result<(), OutOfMemory>
    ensures { OnOk result (8192 ≤ length buffer.new.items) }
{
    if buffer.len() < BUFFER {
        buffer.resize(BUFFER, 0)?;
    }
    Ok(())
}

/// Reads into the first `most` bytes of a slice.
fn read_slice<S: Source>(source: &mut S, buffer: &mut [u8], most: usize) -> Result<usize, Failed>
    requires some { 1 ≤ most }
    requires room { most ≤ length buffer.old }
    ensures bound { IfOk result (λ n. n ≤ most) }
    ensures took { IfOk result (λ n. Took (take n buffer.new) (S.view source.old) (S.view source.new)) }
    ensures end { result ≡ Ok 0 → IfSome (S.view source.new).left (λ rest. rest ≡ []) }
    ensures failed { OnErr result (Took [] (S.view source.old) (S.view source.new)) }
    ensures cause { OnErr result (Rose (S.view source.old).faults (S.view source.new).faults) }
{
    source.read(&mut buffer[..most])
}

/// Reads into the first `most` bytes of the buffer.
fn read_front<S: Source>(source: &mut S, buffer: &mut Vec<u8>, most: usize) -> Result<usize, Failed>
    requires some { 1 ≤ most }
    requires room { most ≤ length buffer.old.items }
    ensures bound { IfOk result (λ n. n ≤ most) }
    ensures took { IfOk result (λ n. Took (take n buffer.new.items) (S.view source.old) (S.view source.new)) }
    ensures end { result ≡ Ok 0 → IfSome (S.view source.new).left (λ rest. rest ≡ []) }
    ensures failed { OnErr result (Took [] (S.view source.old) (S.view source.new)) }
    ensures cause { OnErr result (Rose (S.view source.old).faults (S.view source.new).faults) }
    ensures length { length buffer.new.items ≡ length buffer.old.items }
{
    read_slice(source, buffer, most)
}

impl Intake {
    /// Nothing was taken yet; `limit` bytes may be taken.
    pub fn new(alloc: Global, limit: u64) -> Intake
        ensures { result ≡ record { held = []; more = limit; limit = limit } }
    {
        Intake {
            buffer: Vec::new(alloc),
            at: 0,
            end: 0,
            more: limit,
            limit,
        }
    }

    /// Takes bytes from the source where none are held. False: the source is at its end.
    pub fn fill<S: Source>(&mut self, source: &mut S) -> Result<bool, LineError>
        ensures stays { Stays (lines_ahead (S.view source.old) self.old) (lines_ahead (S.view source.new) self.new) }
        ensures passed { IfOk result (λ more. Passed [] (lines_ahead (S.view source.old) self.old) (lines_ahead (S.view source.new) self.new)) }
        ensures more { IfOk result (λ more. MatchBool more (1 ≤ length self.new.held) ((self.new.held ≡ []) × IfSome (S.view source.new).left (λ rest. rest ≡ []))) }
        ensures over { (limit : ℕ) → result ≡ Err (LineError.Input limit) → ((byte : ℕ) × Took (byte ∷ []) (S.view source.old) (S.view source.new)) × (self.new.held ≡ []) × (self.new.more ≡ 0) }
        ensures failed { result ≡ Err LineError.Failed → Passed [] (lines_ahead (S.view source.old) self.old) (lines_ahead (S.view source.new) self.new) × (self.new.held ≡ []) }
        ensures input { (limit : ℕ) → result ≡ Err (LineError.Input limit) → (limit ≡ self.old.limit) × (self.old.held ≡ []) × (self.old.more ≡ 0) × IfSome (S.view source.old).left (λ rest. 1 ≤ length rest) }
        ensures cause { result ≡ Err LineError.Failed → Rose (S.view source.old).faults (S.view source.new).faults }
    {
        if self.at < self.end {
            return Ok(true);
        }
        self.at = 0;
        self.end = 0;
        make_room(&mut self.buffer)?;
        let n = read_front(source, &mut self.buffer, how_many(self.more))?;
        if n == 0 {
            return Ok(false);
        }
        if self.more == 0 {
            return Err(LineError::Input { limit: self.limit });
        }
        self.end = n;
        self.more -= n as u64;
        Ok(true)
    }

    /// Moves the held bytes before the first line end into `line`, and passes over the line end.
    /// False: there is no line end, and all of them were moved.
    pub fn advance(&mut self, line: &mut Partial) -> Result<bool, OutOfMemory>
        ensures cut { IfOk result (λ ended. (piece : List ℕ) × Cut piece ended self.old self.new × ((front : List ℕ) → Keeps line.old front → Keeps line.new (front ++ piece))) }
        ensures limit { self.new.limit ≡ self.old.limit }
    {
        let held = &self.buffer[self.at..self.end];
        let place = first_place(b'\n', held);
        line.add(&held[..place])?;
        if place == held.len() {
            self.at = self.end;
            return Ok(false);
        }
        self.at += place + 1;
        Ok(true)
    }

    /// Takes the line that stands next, and its end, where it is held whole and is one value of few digits: it comes in the place of what
    /// the list had. False: nothing was taken, which says nothing of the line.
    #[inline(always)]
    fn take_value(&mut self, values: &mut Vec<i128>) -> bool
        ensures taken { IsTrue result → (line : List ℕ) × Cut line true self.old self.new × (number_line_of 1 line ≡ Some values.new.items) }
        ensures kept { result ≡ false → self.new ≡ self.old }
    {
        let Some((len, value)) = line_value(&self.buffer[self.at..self.end]) else {
            return false;
        };
        values.clear();
        if values.push(value).is_err() {
            return false;
        }
        self.at += len + 1;
        true
    }

    /// Takes the line that stands next, and its end, where it is held whole and is one of numbers: its values come in the place of what
    /// the list had. False: nothing was taken, which says nothing of the line.
    fn take_line(&mut self, columns: u64, values: &mut Vec<i128>) -> bool
        requires { 1 ≤ columns }
        ensures taken { IsTrue result → (line : List ℕ) × Cut line true self.old self.new × (number_line_of columns line ≡ Some values.new.items) }
        ensures kept { result ≡ false → self.new ≡ self.old }
    {
        let held = &self.buffer[self.at..self.end];
        let len = first_place(b'\n', held);
        if len == held.len() {
            return false;
        }
        match fill_numbers(&held[..len], columns, values) {
            Ok(()) => {
                self.at += len + 1;
                true
            }
            Err(_) => false,
        }
    }

    /// Takes the line that stands next, and its end, where it is held whole and is one of numbers: its values come in the place of what
    /// the list had. False: nothing was taken, which says nothing of the line. A line of one value has a way of its own.
    pub fn take_numbers(&mut self, columns: u64, values: &mut Vec<i128>) -> bool
        requires { 1 ≤ columns }
        ensures taken { IsTrue result → (line : List ℕ) × Cut line true self.old self.new × (number_line_of columns line ≡ Some values.new.items) }
        ensures kept { result ≡ false → self.new ≡ self.old }
    {
        if columns == 1 {
            if self.take_value(values) {
                return true;
            }
        }
        self.take_line(columns, values)
    }

    /// Adds the values of the lines that stand next, as far as they are held whole, each of them is one value of few digits, and the list has
    /// room. Nothing is taken. Answers how many bytes these lines have with their ends.
    pub fn values_ahead(&self, values: &mut Vec<i128>) -> usize
        ensures { (added : List ℤ) × (values.new.items ≡ values.old.items ++ added) × StandNext added result self.now.held }
    {
        let held = &self.buffer[self.at..self.end];
        let mut at = 0;
        while values.len() < values.capacity() {
            let Some((len, value)) = line_value(&held[at..]) else {
                break;
            };
            values.push_reserved(value);
            at += len + 1;
        }
        at
    }

    /// Takes so many of the bytes that are held, the first.
    pub fn pass(&mut self, bytes: usize)
        requires { bytes ≤ length self.old.held }
        ensures { self.new ≡ record self.old { held = drop bytes self.old.held } }
    {
        self.at += bytes;
    }
}
