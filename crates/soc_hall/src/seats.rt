//! Seats of a hall.
ghost use Rattle.std.specs.Prelude.{◌≡◌, ◌<◌, [], ◌∷◌, ◌++◌, length, MatchOption};
ghost use Rattle.soc_hall.specs.declared.view.Stage.TheVariants.{Idle};

use crate::logged::Logged;
use crate::view::{Place, View};

/// A thread's right to take turns, and what it has seen. It has no bytes. It names what lies in the slot by one parameter, since else no proof is found that it may cross threads.
#[derive(Drop)]
pub struct HallSeat<S, B, X, C, P> {
    pub(crate) chair: atomic_table::Seat<S, View<B, X, C, P>>,
    ghost holds_nothing: { chair.me.1 ≡ [] },
    ghost rests: { chair.me.0.stage ≡ Idle },
    ghost one: { chair.me.0.parts ≡ 1 },
    ghost took_none: { chair.me.0.gone ≡ [] },
}

/// A seat of a hall over this state.
pub type Seat<T> = HallSeat<
    Place<T, <T as Logged>::Command, <T as Logged>::Reply>,
    <T as Logged>::Basis,
    <T as Logged>::Change,
    <T as Logged>::Command,
    <T as Logged>::Reply,
>;

/// What steps on the table: a seat, or what becomes one.
pub(crate) type Chair<T> = atomic_table::Seat<
    Place<T, <T as Logged>::Command, <T as Logged>::Reply>,
    View<<T as Logged>::Basis, <T as Logged>::Change, <T as Logged>::Command, <T as Logged>::Reply>,
>;

/// Seats that nobody has now.
#[derive(Drop)]
pub struct HallSeats<S, B, X, C, P> {
    pub(crate) list: Vec<HallSeat<S, B, X, C, P>>,
}

/// Seats of halls over this state.
pub type Seats<T> = HallSeats<
    Place<T, <T as Logged>::Command, <T as Logged>::Reply>,
    <T as Logged>::Basis,
    <T as Logged>::Change,
    <T as Logged>::Command,
    <T as Logged>::Reply,
>;

impl<S, B, X, C, P> HallSeats<S, B, X, C, P> {
    ghost use Rattle.soc_hall.specs.Seats.{seats_in, room_of};

    /// The last of them.
    pub fn pop(&mut self) -> Option<HallSeat<S, B, X, C, P>>
        ensures popped { MatchOption result ((seats_in self.old ≡ []) × (seats_in self.new ≡ []))
            (λ seat. seats_in self.old ≡ seats_in self.new ++ seat ∷ []) }
        ensures room { room_of self.new ≡ room_of self.old }
    {
        self.list.pop()
    }

    /// Takes no memory: there is room for all seats of the hall.
    pub fn push(&mut self, seat: HallSeat<S, B, X, C, P>)
        requires { length (seats_in self.old) < room_of self.old }
        ensures pushed { seats_in self.new ≡ seats_in self.old ++ seat ∷ [] }
        ensures room { room_of self.new ≡ room_of self.old }
    {
        self.list.push_reserved(seat);
    }
}
