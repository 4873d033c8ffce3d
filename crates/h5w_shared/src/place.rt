//! A seat at the table with what it counts, and the turns that it takes.
ghost use Rattle.std.specs.Prelude.{◌≡◌, ◌<◌, ◌∷◌, [], ℕ, false, true, IfOk, IfSome, IfNone, OnErr, OnOk, None, Some};
ghost use Rattle.h5w_shared.specs.declared.table.Stage.TheVariants.{Serving, Waiting};
ghost use Rattle.h5w_shared.specs.Turns.{FoundStore, Returned, finished, serving_with};
ghost use Rattle.h5w_shared.specs.Places.{AtRest, Counts, IsAt, Keeps, Met, Refused, Turn, Twin as TwinOf, Unchanged, Waits};

use crate::table::{Both, Draw, End, Look, Shelf, Tell, Token, Twin};
use h5w_image::{Failed, MemImage};
use std::sync::Wait;
use std::{hint, thread};

/// The word of the tickets that are drawn.
const TICKET: usize = 0;

/// The word of the ticket that is served.
const SERVING: usize = 1;

/// The slot of the store.
const STORE: usize = 0;

/// The ticket word's last value. A seat that was shown it draws no more.
const LAST: u64 = 1 << 63;

/// How often the next in line looks before it lets another thread run.
const SPINS: u32 = 100;

/// How often a patient seat looks before it lets another thread run.
const LOOKS: u32 = 1_000;

/// One that is not patient gives way at every so many-th try to draw before which another drew.
const TRIES: u32 = 20;

/// It gives way for so many turns of others at most.
const TURNS: u64 = 64;

/// And for so many breaths at most.
const BREATHS: u32 = 150;

/// A breath is so many pauses of the processor.
const BREATH: u32 = 32;

/// A seat at the table, with what it counts.
#[derive(Drop)]
pub struct Place {
    pub seat: Token,
    /// The value of the ticket word to draw from.
    pub next: u64,
    /// It was shown the ticket word's last value.
    pub worn: bool,
    /// How many calls failed for that.
    pub faults: u64,
    /// How many pieces it has seen.
    pub seen: u64,
    /// How many tries to draw failed since it gave way.
    pub tries: u32,
}

/// A patient seat that has looked so often in vain waits for its next look.
fn pause(looks: u32) -> u32 {
    if looks < LOOKS {
        hint::spin_loop();
        return looks + 1;
    }
    thread::yield_now();
    0
}

/// Lets some time pass.
fn breathe() {
    for _ in 0..BREATH {
        hint::spin_loop();
    }
}

impl Place {
    /// Tries to draw the next ticket. Without one it was shown another value of the ticket word.
    fn try_draw(&mut self, shelf: &Shelf) -> Option<u64>
        requires rest { AtRest self.old }
        requires worn { self.old.worn ≡ false }
        requires table { IsAt shelf.now.table_id self.old }
        ensures drew { IfSome result (Waits self.old self.new) }
        ensures none { IfNone result (AtRest self.new × Keeps self.old self.new) }
    {
        let from = self.next;
        let found = shelf.compare_exchange::<Draw>(&mut self.seat, TICKET, from, from + 1);
        self.worn |= found == LAST;
        if found == from {
            self.next = (from + 1).min(LAST - 1);
            return Some(found);
        }
        self.next = found.min(LAST - 1);
        None
    }

    /// Draws the next ticket; a patient seat waits until no other has one. Failed: the seat was shown the ticket word's last value, and counts it.
    fn draw<R: Wait>(&mut self, rt: &R, shelf: &Shelf, patient: bool) -> Result<u64, Failed>
        requires rest { AtRest self.old }
        requires table { IsAt shelf.now.table_id self.old }
        ensures drew { IfOk result (Waits self.old self.new) }
        ensures worn { OnOk result (self.old.worn ≡ false) }
        ensures refused { OnErr result (Refused self.old self.new) }
    {
        let mut looks = 0u32;
        for _ in rt.forever() {
            if self.worn {
                self.faults = self.faults.saturating_add(1);
                return Err(Failed);
            }
            if patient && self.others_wait(shelf) {
                looks = pause(looks);
            } else if let Some(ticket) = self.try_draw(shelf) {
                return Ok(ticket);
            } else if !patient {
                self.give_way(shelf);
            }
        }
        unreachable!()
    }

    /// Another has drawn before this seat. At some of such tries it draws nothing for a while, so that others take several turns in a row.
    fn give_way(&mut self, shelf: &Shelf)
        requires rest { AtRest self.old }
        requires table { IsAt shelf.now.table_id self.old }
        ensures same { Unchanged self.old self.new }
    {
        self.tries = self.tries.saturating_add(1);
        if self.tries < TRIES {
            return;
        }
        self.tries = 0;
        let last = self.next.saturating_add(TURNS);
        for _ in 0..BREATHS {
            if self.served(shelf) >= last {
                return;
            }
            breathe();
        }
    }

    /// The ticket that is served, as far as this seat is shown.
    fn served(&mut self, shelf: &Shelf) -> u64
        requires rest { AtRest self.old }
        requires table { IsAt shelf.now.table_id self.old }
        ensures same { Unchanged self.old self.new }
    {
        shelf.load::<Tell>(&mut self.seat, SERVING)
    }

    /// Another has drawn a ticket that is not served to its end, as far as this seat was shown.
    fn others_wait(&mut self, shelf: &Shelf) -> bool
        requires rest { AtRest self.old }
        requires table { IsAt shelf.now.table_id self.old }
        ensures same { Unchanged self.old self.new }
    {
        self.next > self.served(shelf)
    }

    /// Waits for a turn, and takes the store out. A patient seat draws no ticket while another has one.
    pub fn turn<R: Wait>(
        &mut self,
        rt: &R,
        shelf: &Shelf,
        patient: bool,
    ) -> Result<MemImage, Failed>
        requires rest { AtRest self.old }
        requires table { IsAt shelf.now.table_id self.old }
        ensures turn { IfOk result (Turn self.old self.new) }
        ensures worn { OnOk result (self.old.worn ≡ false) }
        ensures refused { OnErr result (Refused self.old self.new) }
    {
        let ticket = self.draw(rt, shelf, patient)?;
        wait(rt, shelf, &mut self.seat, ticket);
        Ok(shelf.exchange(&mut self.seat, STORE, None).unwrap())
    }

    /// Puts the store back, and serves the next ticket.
    pub fn end(&mut self, shelf: &Shelf, store: MemImage)
        requires table { IsAt shelf.now.table_id self.old }
        requires served { (ticket : ℕ) × (self.old.seat.me.0.stage ≡ Serving ticket) }
        requires out { self.old.seat.me.1 ≡ (0, None) ∷ [] }
        requires there { self.old.seat.me.0.spent ≡ false }
        requires counts { Counts self.old }
        requires store { Returned self.old.seat.me.0 store }
        ensures rest { AtRest self.new }
        ensures table { self.new.seat.table_id ≡ self.old.seat.table_id }
        ensures knows { self.new.seat.me.0 ≡ finished store self.old.seat.me.0 }
        ensures counts { (self.new.worn ≡ self.old.worn) × (self.new.faults ≡ self.old.faults) }
    {
        self.seen = store.journal().len();
        shelf.exchange(&mut self.seat, STORE, Some(store));
        shelf.fetch_add::<End>(&mut self.seat, SERVING, 1);
    }

    /// A new one that knows as much.
    pub fn twin(&mut self, shelf: &Shelf) -> Place
        requires rest { AtRest self.old }
        requires table { IsAt shelf.now.table_id self.old }
        ensures same { Unchanged self.old self.new }
        ensures twin { TwinOf self.old result }
    {
        Place {
            seat: shelf.split_seat::<Twin>(&mut self.seat),
            next: self.next,
            worn: false,
            faults: 0,
            seen: self.seen,
            tries: 0,
        }
    }

    /// Takes in what another knew.
    pub fn meet(&mut self, shelf: &Shelf, other: Place)
        requires rest { AtRest self.old }
        requires table { IsAt shelf.now.table_id self.old }
        requires other { AtRest other }
        requires other_table { IsAt shelf.now.table_id other }
        ensures { Met self.old other self.new }
    {
        let Place { seat, seen, .. } = other;
        shelf.join_seat::<Both>(&mut self.seat, seat);
        shelf.load::<Tell>(&mut self.seat, SERVING);
        self.seen = self.seen.max(seen);
    }
}

/// Waits until the ticket is served.
fn wait<R: Wait>(rt: &R, shelf: &Shelf, seat: &mut Token, ticket: u64)
    requires table { (seat.old.table_id ≡ shelf.now.table_id) × (shelf.now.table_id.words ≡ 2) × (shelf.now.table_id.slots ≡ 1) }
    requires waits { seat.old.me.0.stage ≡ Waiting ticket }
    requires there { seat.old.me.0.spent ≡ false }
    requires bare { seat.old.me.1 ≡ [] }
    ensures table { seat.new.table_id ≡ seat.old.table_id }
    ensures served { (x : _) × FoundStore seat.old.me.0 x × (seat.new.me ≡ (serving_with ticket x seat.old.me.0, (0, Some x) ∷ [])) }
{
    let mut tries = 0u32;
    for _ in rt.forever() {
        let serving = shelf.load::<Look>(seat, SERVING);
        if serving == ticket {
            return;
        }
        if ticket.wrapping_sub(serving) == 1 && tries < SPINS {
            tries += 1;
            hint::spin_loop();
        } else {
            thread::yield_now();
        }
    }
    unreachable!()
}
