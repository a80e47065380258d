//! How seats tell one another what they have seen.
ghost use Rattle.std.specs.Prelude.{◌≡◌};
ghost use Rattle.soc_hall.specs.Log.{IsLonger};
ghost use Rattle.soc_hall.specs.Seats.{known, known_of, IsSeatOf};
ghost use Rattle.soc_hall.specs.Asked.{Meets, Owns};
ghost use Rattle.soc_hall.specs.inner.Steps.{seeing};
ghost use Rattle.soc_hall.specs.inner.Chairs.{IsChair};

use crate::hall::Hall;
use crate::logged::Logged;
use crate::plays::{Compare, Hear, Note};
use crate::seats::{Chair, HallSeat, Seat};

impl<T: Logged> Hall<T> {
    // Afterwards the hearer has seen the longer of the two logs.
    fn tell(&self, teller: &mut Chair<T>, hearer: &mut Chair<T>)
        requires teller { IsChair self.now.table.shared.table_id teller.old }
        requires hearer { IsChair self.now.table.shared.table_id hearer.old }
        ensures teller { IsChair self.now.table.shared.table_id teller.new
            × (teller.new.me.0 ≡ teller.old.me.0) }
        ensures hearer { IsChair self.now.table.shared.table_id hearer.new }
        ensures hears { (s : _) × (hearer.new.me.0 ≡ seeing s hearer.old.me.0)
            × IsLonger s hearer.old.me.0.seen teller.old.me.0.seen }
        ensures owns { Owns T.answers (known hearer.new.me.0) }
    {
        let table = &self.table.shared;
        let note = table.split_seat::<Note>(teller);
        table.join_seat::<Hear>(hearer, note);
        table.load::<Compare<T>>(hearer, 0);
    }

    /// Afterwards both seats have seen the longer of their logs.
    pub fn meet(&self, a: Seat<T>, b: Seat<T>) -> (Seat<T>, Seat<T>)
        requires a { IsSeatOf self.now a }
        requires b { IsSeatOf self.now b }
        ensures a { IsSeatOf self.now result.0 × Owns T.answers (known_of result.0) }
        ensures b { IsSeatOf self.now result.1 × Owns T.answers (known_of result.1) }
        ensures longer { Meets (known_of a) (known_of b) (known_of result.0) (known_of result.1) }
    {
        let HallSeat { chair: mut a } = a;
        let HallSeat { chair: mut b } = b;
        self.tell(&mut a, &mut b);
        self.tell(&mut b, &mut a);
        (HallSeat { chair: a }, HallSeat { chair: b })
    }
}
