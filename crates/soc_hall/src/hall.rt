//! The hall.
ghost use Rattle.std.specs.Prelude.{◌≡◌, ◌+◌, ◌<◌, ◌≤◌, [], ◌∷◌, length, All, IfErr, IfOk, vec_capacity};

use crate::logged::Logged;
use crate::plays::{Number, Part};
use crate::seats::{Chair, HallSeat, Seat, Seats};
use crate::view::{Law, Place, Start, View};
use atomic_table::{Refused, Table, TableRule};
use soc_base::NoMemory;
use std::alloc::Global;
use std::snapshot::Snapshot;

/// What a turn gives back: the lengths of the log before and after it, and the reply.
#[derive(Drop)]
pub struct HallReceipt<P> {
    pub start: u64,
    pub front: u64,
    pub reply: P,
}

/// A table with three words and one slot. It stands apart from `Hall`, since no proof is found that a struct with the fields' types spelled out may be shared.
#[derive(Drop)]
pub struct Room<S, V, T, Q: TableRule<S, V, Start<T>>> {
    pub(crate) table: Table<S, V, Start<T>, Q, Global>,
    ghost sized: { table.shared.table_id.words ≡ 3 },
    ghost one_slot: { table.shared.table_id.slots ≡ 1 },
    ghost some_seat: { 0 < table.shared.key.seats },
}

/// A state under a ticketed lock.
pub type Hall<T> = Room<
    Place<T, <T as Logged>::Command, <T as Logged>::Reply>,
    View<<T as Logged>::Basis, <T as Logged>::Change, <T as Logged>::Command, <T as Logged>::Reply>,
    T,
    Law<T>,
>;

impl<T: Logged + Drop> Hall<T> {
    ghost use Rattle.soc_hall.specs.Seats.{known_of, seats_in, room_of, seats_of, IsSeatOf, IsNew};

    /// A hall over this state, and its seats. Where memory is wanting, the state is dropped.
    pub fn new(alloc: Global, state: T, seats: u32) -> Result<(Hall<T>, Seats<T>), NoMemory>
        requires { (0 < seats) × (seats ≤ 64) }
        ensures hall { IfOk result (λ made. seats_of made.0 ≡ seats) }
        ensures count { IfOk result (λ made. (length (seats_in made.1) ≡ seats)
            × (seats ≤ room_of made.1)) }
        ensures each { IfOk result (λ made.
            All (λ seat. IsSeatOf made.0 seat
            × IsNew (T.basis_of state) (T.log_of state) (known_of seat)) (seats_in made.1)) }
    {
        Self::over(alloc, state, seats).map_err(|_| NoMemory)
    }
}

impl<T: Logged> Hall<T> {
    ghost use Rattle.soc_hall.specs.Seats.{known_of, seats_in, room_of, seats_of, IsSeatOf, IsNew};
    ghost use Rattle.soc_hall.specs.inner.Chairs.{IsNewChair};
    ghost use Rattle.soc_hall.specs.declared.view.Place.TheVariants.{Rest};

    /// A hall over this state, and its seats. Where memory is wanting, the state comes back.
    pub fn over(alloc: Global, state: T, seats: u32) -> Result<(Hall<T>, Seats<T>), T>
        requires { (0 < seats) × (seats ≤ 64) }
        ensures hall { IfOk result (λ made. seats_of made.0 ≡ seats) }
        ensures count { IfOk result (λ made. (length (seats_in made.1) ≡ seats)
            × (seats ≤ room_of made.1)) }
        ensures each { IfOk result (λ made.
            All (λ seat. IsSeatOf made.0 seat
            × IsNew (T.basis_of state) (T.log_of state) (known_of seat)) (seats_in made.1)) }
        ensures back { IfErr result (λ back. back ≡ state) }
    {
        let Ok(list) = Vec::with_capacity(alloc, seats as usize) else {
            return Err(state);
        };
        let Ok(mut slots) = Vec::with_capacity(alloc, 1) else {
            list.destroy_empty();
            return Err(state);
        };
        let words = [state.front(), 0, 0];
        let start = Start {
            state: Snapshot::of(&state),
            seats,
        };
        slots.push_reserved(Place::Rest(state));
        match Table::new(alloc, &words, slots, &start) {
            Ok((table, chair)) => {
                let hall = Room { table };
                let seats = hall.fill(list, chair, seats);
                Ok((hall, seats))
            }
            Err(Refused { slots }) => {
                list.destroy_empty();
                Err(Self::taken_back(slots))
            }
        }
    }

    // The state that lies in the one slot of a table that wasn't made.
    fn taken_back(mut slots: Vec<Place<T, T::Command, T::Reply>>) -> T
        requires { (state : T) × (slots.items ≡ Rest state ∷ []) }
        ensures { slots.items ≡ Rest result ∷ [] }
    {
        let Some(place) = slots.pop() else {
            unreachable!()
        };
        slots.destroy_empty();
        match place {
            Place::Empty => unreachable!(),
            Place::Rest(state) => state,
            Place::Done(state, _, _) => state,
        }
    }

    // All seats, of which this is the first.
    fn fill(&self, mut list: Vec<Seat<T>>, mut chair: Chair<T>, seats: u32) -> Seats<T>
        requires list { (list.items ≡ []) × (seats ≤ vec_capacity list) × (0 < seats) }
        requires chair { IsNewChair T.basis_of T.log_of self.now chair
            × (chair.me.0.parts ≡ seats) }
        ensures count { (length (seats_in result) ≡ seats) × (seats ≤ room_of result) }
        ensures each { All (λ seat. IsSeatOf self.now seat
            × IsNew (T.basis_of self.now.table.shared.key.state.value)
            (T.log_of self.now.table.shared.key.state.value) (known_of seat)) (seats_in result) }
    {
        for _made in 1..seats {
            let other = self.another(&mut chair);
            list.push_reserved(HallSeat { chair: other });
        }
        list.push_reserved(HallSeat { chair });
        Seats { list }
    }

    // A seat more, by one of the parts of this one.
    fn another(&self, chair: &mut Chair<T>) -> Chair<T>
        requires chair { IsNewChair T.basis_of T.log_of self.now chair.old }
        requires parts { 1 < chair.old.me.0.parts }
        ensures chair { IsNewChair T.basis_of T.log_of self.now chair.new
            × (chair.new.me.0.parts + 1 ≡ chair.old.me.0.parts) }
        ensures other { IsNewChair T.basis_of T.log_of self.now result × (result.me.0.parts ≡ 1) }
    {
        let mut other = self.table.shared.split_seat::<Part>(chair);
        self.table.shared.load::<Number>(&mut other, 0);
        other
    }
}
