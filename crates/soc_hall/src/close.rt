//! How a hall is closed.
ghost use Rattle.std.specs.Prelude.{◌≡◌, ℕ, ◌+◌, ◌++◌, [], ◌∷◌, length, map, All};
ghost use Rattle.soc_hall.specs.Seats.{known, known_of, seats_in, seats_of, IsSeatOf};
ghost use Rattle.soc_hall.specs.Asked.{Closes};
ghost use Rattle.soc_hall.specs.inner.Chairs.{IsChair};
ghost use Rattle.soc_hall.specs.inner.Steps.{having_taken};

use crate::hall::{Hall, Room};
use crate::logged::Logged;
use crate::plays::TakeIn;
use crate::seats::{Chair, HallSeat, HallSeats, Seat, Seats};
use crate::view::Place;

impl<T: Logged> Hall<T> {
    // This seat takes the others in, for good.
    fn take_in(&self, mut chair: Chair<T>, others: Vec<Seat<T>>) -> Chair<T>
        requires chair { IsChair self.now.table.shared.table_id chair }
        requires others { All (λ seat. IsSeatOf self.now seat) others.items }
        ensures chair { IsChair self.now.table.shared.table_id result }
        ensures took { result.me.0 ≡ having_taken
            (map (λ seat. known_of seat) others.items) chair.me.0 }
    {
        for seat in others {
            let HallSeat { chair: other } = seat;
            self.table.shared.join_seat::<TakeIn>(&mut chair, other);
        }
        chair
    }

    // Ends the table by the seat that has taken in all others.
    fn end(self, chair: Chair<T>) -> T
        requires chair { IsChair self.table.shared.table_id chair }
        requires all { chair.me.0.parts ≡ seats_of self }
        ensures { Closes T.answers (T.log_of result) (T.basis_of result)
            (chair.me.0.gone ++ known chair.me.0 ∷ []) }
    {
        let Room { table } = self;
        let mut closed = table.close_with(chair);
        let place = closed.take(0);
        closed.free();
        match place {
            Place::Empty => unreachable!(),
            Place::Rest(state) => state,
            Place::Done(state, _, _) => state,
        }
    }

    /// Closes the hall and gives its state. The seats are all of the hall's.
    pub fn close(self, seats: Seats<T>) -> T
        requires seats { All (λ seat. IsSeatOf self seat) (seats_in seats) }
        requires all { length (seats_in seats) ≡ seats_of self }
        ensures { Closes T.answers (T.log_of result) (T.basis_of result)
            (map (λ seat. known_of seat) (seats_in seats)) }
    {
        let HallSeats { list: mut others } = seats;
        let Some(HallSeat { chair }) = others.pop() else {
            unreachable!()
        };
        let chair = self.take_in(chair, others);
        self.end(chair)
    }
}
