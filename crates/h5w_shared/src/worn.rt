ghost use Rattle.std.specs.Prelude.{◌≡◌, ◌<◌};
ghost use Rattle.h5w_shared.specs.Seats.{Rests, worn_view};

use crate::place::Place;
use std::marker::Model;

/// What shows that a seat was shown the ticket word at 2^63. It keeps that seat.
#[derive(Drop)]
pub struct Worn {
    place: Place,
    writes: bool,
}

impl Model for Worn {
    ghost use Rattle.std.specs.Prelude.{◌≡◌, true};
    ghost use Rattle.h5w_shared.specs.Seats.{SeatView, Rests, worn_view};

    ghost Value = { SeatView };

    ghost view = { λ w. worn_view w.place w.writes };

    /// Its seat was shown the ticket word at 2^63.
    ghost invariant = { λ w. Rests w.writes w.place × (w.place.seat.me.0.worn ≡ true) };
}

impl Worn {
    /// Of a seat that counts a fault.
    pub(crate) fn of(place: Place, writes: bool) -> Worn
        requires rests { Rests writes place }
        requires counts { 0 < place.faults }
        ensures { result ≡ worn_view place writes }
    {
        Worn { place, writes }
    }
}
