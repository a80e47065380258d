//! A turn, step by step.
ghost use Rattle.std.specs.Prelude.{◌≡◌, ℕ, ◌+◌, ◌-◌, ◌%◌, ◌^◌, ◌<◌, ◌≤◌, List, [], ◌∷◌, length, drop};
ghost use Rattle.soc_hall.specs.declared.view.Stage.TheVariants.{Idle, Waits, Turns};
ghost use Rattle.soc_hall.specs.declared.view.Place.TheVariants.{Empty, Rest, Done};
ghost use Rattle.soc_hall.specs.Seats.{known, known_of, IsSeatOf, MayAsk};
ghost use Rattle.soc_hall.specs.Asked.{IsState, Asks, Owns};
ghost use Rattle.soc_hall.specs.inner.Rule.{Holds};
ghost use Rattle.soc_hall.specs.inner.Steps.{staged, taken, turned_by, front_of, Takes, IsAfter, IsDone};
ghost use Rattle.soc_hall.specs.inner.Chairs.{IsChair, IsSame, WaitsWith};

use crate::hall::{Hall, HallReceipt};
use crate::logged::Logged;
use crate::plays::{Count, Draw, Front, Look, Pass};
use crate::seats::{Chair, HallSeat, Seat};
use crate::view::Place;
use std::hint;
use std::snapshot::Snapshot;
use std::sync::Wait;

// How often a seat looks before it sleeps: about 2 microseconds.
const LOOKS: u32 = 128;

// What a seat has at its turn: the state that lies in the hall, and the length of its log.
struct Entered<T> {
    ticket: u64,
    start: u64,
    state: T,
}

impl<T: Logged> Hall<T> {
    // Draws a ticket.
    fn draw(&self, chair: &mut Chair<T>) -> u64
        requires { IsChair self.now.table.shared.table_id chair.old }
        ensures same { IsSame chair.old chair.new }
        ensures drew { (t : ℕ) × (result ≡ t % 2 ^ 64)
            × (chair.new.me ≡ (staged (Waits t) chair.old.me.0, [])) }
    {
        self.table.shared.fetch_add::<Draw>(chair, 1, 1)
    }

    // Waits for the turn, and takes the slot with it.
    fn wait<R: Wait>(&self, rt: &R, chair: &mut Chair<T>, ticket: u64)
        requires table { chair.old.table_id ≡ self.now.table.shared.table_id }
        requires waits { WaitsWith ticket chair.old }
        ensures same { IsSame chair.old chair.new }
        ensures takes { (t : ℕ) × Takes T.log_of T.basis_of chair.old.me.0 t [] chair.new.me.0
            chair.new.me.1 }
    {
        let mut looks = 0u32;
        for _ in rt.forever() {
            let serving = self.table.shared.load::<Look<T>>(chair, 2);
            if serving == ticket {
                return;
            }
            if looks < LOOKS {
                looks += 1;
                hint::spin_loop();
            } else {
                // A change of these bits wakes it at once, so no turn's end can fall between the look and the sleep.
                let low = (serving & 0xffff_ffff) as u32;
                self.table.shared.park(rt, 2, low);
            }
        }
        unreachable!()
    }

    // With the turn: the length of the log.
    fn front(&self, chair: &mut Chair<T>) -> u64
        requires table { chair.old.table_id ≡ self.now.table.shared.table_id }
        requires turn { (t : ℕ) × (chair.old.me.0.stage ≡ Turns t) }
        ensures same { IsSame chair.old chair.new × (chair.new.me ≡ chair.old.me) }
        ensures front { result ≡ front_of chair.old.me.0 }
    {
        self.table.shared.load::<Front>(chair, 0)
    }

    // With the turn: moves the state out of the held slot.
    fn take(&self, chair: &mut Chair<T>) -> T
        requires table { chair.old.table_id ≡ self.now.table.shared.table_id }
        requires state { (x : _) × (chair.old.me.1 ≡ (0, x) ∷ [])
            × Holds (IsState T.log_of T.basis_of chair.old.me.0.basis chair.old.me.0.opening
            chair.old.me.0.seen) x }
        ensures same { IsSame chair.old chair.new
            × (chair.new.me ≡ (chair.old.me.0, (0, Empty) ∷ [])) }
        ensures state { IsState T.log_of T.basis_of chair.old.me.0.basis chair.old.me.0.opening
            chair.old.me.0.seen result }
    {
        match self.table.shared.exchange(chair, 0, Place::Empty) {
            Place::Empty => unreachable!(),
            Place::Rest(state) => state,
            Place::Done(state, _, _) => state,
        }
    }

    // Waits for a turn, and takes the state.
    fn enter<R: Wait>(&self, rt: &R, chair: &mut Chair<T>) -> Entered<T>
        requires { IsChair self.now.table.shared.table_id chair.old }
        ensures same { IsSame chair.old chair.new }
        ensures entered { (t : ℕ) × (between : List _)
            × (chair.new.me ≡ (taken chair.old.me.0 t between, (0, Empty) ∷ [])) }
        ensures start { result.start ≡ front_of chair.new.me.0 }
        ensures state { IsState T.log_of T.basis_of chair.new.me.0.basis chair.new.me.0.opening
            chair.new.me.0.seen result.state }
    {
        let ticket = self.draw(chair);
        self.wait(rt, chair, ticket);
        let start = self.front(chair);
        let state = self.take(chair);
        Entered {
            ticket,
            start,
            state,
        }
    }

    // Moves the state back into the held slot, with what was said.
    fn give(
        &self,
        chair: &mut Chair<T>,
        state: T,
        command: Snapshot<T::Command>,
        reply: Snapshot<T::Reply>,
    )
        requires table { chair.old.table_id ≡ self.now.table.shared.table_id }
        requires empty { chair.old.me.1 ≡ (0, Empty) ∷ [] }
        ensures same { IsSame chair.old chair.new
            × (chair.new.me ≡ (chair.old.me.0, (0, Done state command reply) ∷ [])) }
    {
        let before = self
            .table
            .shared
            .exchange(chair, 0, Place::Done(state, command, reply));
        let Place::Empty = before else { unreachable!() };
    }

    // Adds the length of the piece to the log's length, while the state that has it lies in the held slot.
    fn count(&self, chair: &mut Chair<T>, length: u64)
        requires table { chair.old.table_id ≡ self.now.table.shared.table_id }
        requires turn { (t : ℕ) × (chair.old.me.0.stage ≡ Turns t) }
        requires done { IsDone T.log_of T.basis_of T.answers chair.old.me length }
        ensures same { IsSame chair.old chair.new }
        ensures counted { (x : T) (c : _) (p : _) → chair.old.me.1 ≡ (0, Done x c p) ∷ []
            → chair.new.me ≡ (
              turned_by chair.old.me.0
                  (drop (front_of chair.old.me.0) (T.log_of x)) c.value p.value,
              chair.old.me.1,
            ) }
    {
        self.table.shared.fetch_add::<Count<T>>(chair, 0, length);
    }

    // Gives the slot back, and the turn to the next ticket.
    fn pass(&self, chair: &mut Chair<T>)
        requires table { chair.old.table_id ≡ self.now.table.shared.table_id }
        requires turn { (t : ℕ) × (chair.old.me.0.stage ≡ Turns t) }
        requires state { (x : _) × (chair.old.me.1 ≡ (0, x) ∷ [])
            × Holds (IsState T.log_of T.basis_of chair.old.me.0.basis chair.old.me.0.opening
            chair.old.me.0.seen) x }
        ensures same { IsSame chair.old chair.new }
        ensures passed { chair.new.me ≡ (staged Idle chair.old.me.0, []) }
        ensures owns { Owns T.answers (known chair.new.me.0) }
    {
        self.table.shared.fetch_add::<Pass<T>>(chair, 2, 1);
    }

    // Gives the state back after a turn that made its log longer by so much.
    fn leave(
        &self,
        chair: &mut Chair<T>,
        state: T,
        command: Snapshot<T::Command>,
        reply: Snapshot<T::Reply>,
        length: u64,
    )
        requires table { chair.old.table_id ≡ self.now.table.shared.table_id }
        requires turn { (t : ℕ) × (chair.old.me.0.stage ≡ Turns t) }
        requires empty { chair.old.me.1 ≡ (0, Empty) ∷ [] }
        requires after { IsAfter T.log_of T.basis_of T.answers chair.old.me.0 length state
            command.value reply.value }
        ensures same { IsSame chair.old chair.new }
        ensures left { chair.new.me ≡ (
          staged Idle
              (turned_by chair.old.me.0 (drop (front_of chair.old.me.0) (T.log_of state))
              command.value reply.value),
          [],
        ) }
        ensures owns { Owns T.answers (known chair.new.me.0) }
    {
        self.give(chair, state, command, reply);
        self.count(chair, length);
        self.pass(chair);
    }

    // Wakes who sleeps, if a ticket is out behind this one. Who sleeps has drawn a ticket before its last look.
    // All are woken, since the kernel doesn't know whose ticket is next.
    fn call_next(&self, ticket: u64) {
        if self.table.shared.peek(1) != ticket.wrapping_add(1) {
            self.table.shared.wake_all(2);
        }
    }

    /// Waits for a turn, and asks the command in it.
    pub fn ask<R: Wait>(
        &self,
        rt: &R,
        seat: Seat<T>,
        command: T::Command,
    ) -> (Seat<T>, HallReceipt<T::Reply>)
        requires seat { IsSeatOf self.now seat }
        requires may { MayAsk T.may_ask (known_of seat) command }
        ensures seat { IsSeatOf self.now result.0 }
        ensures turn { Asks T.log_of T.basis_of T.asks T.answers (known_of seat) command result.1
            (known_of result.0) }
        ensures owns { Owns T.answers (known_of result.0) }
    {
        let HallSeat { mut chair } = seat;
        let Entered {
            ticket,
            start,
            mut state,
        } = self.enter(rt, &mut chair);
        let asked = Snapshot::of(&command);
        let reply = state.turn(command);
        let front = state.front();
        let replied = Snapshot::of(&reply);
        self.leave(&mut chair, state, asked, replied, front - start);
        self.call_next(ticket);
        let receipt = HallReceipt {
            start,
            front,
            reply,
        };
        (HallSeat { chair }, receipt)
    }
}
