// A radio pool: grants by number, each with a size.
ghost use Rattle.std.specs.Prelude.{◌≡◌, ℕ, true};
ghost use Rattle.rules.specs.Radio.{Radio, Lawful, Taken, Given, takes, gives, after_take, after_give};
ghost use Rattle.admission.specs.Member.{member};

use crate::GrantSet;

// No call asks anything: its equations hold in every state. The laws speak of the sound ones.
// Every making of a pool ensures a sound state, and the laws say that a take and a give keep it so.
// A take and a give answer whether they were obeyed, by a bool as a set's insert does: callers ask no more.
pub trait RadioPool {
    // What the pool's states are, and what they mean. No Model: a Model's value is data, and states have functions in them.
    ghost radio: { Radio };

    ghost state: { Self → radio.State };

    // The size of a grant, or 0 where it is not held. No Option: the rules answer a size, 0 for none.
    fn held(&self, grant: u8) -> u8
        ensures { result ≡ radio.holds (state self.now) grant };

    // Whether a size is admitted with the grants of the admission set given back.
    fn room(&self, given: &GrantSet, size: u8) -> bool
        ensures { result ≡ radio.admits (state self.now) (member given.now) size };

    // Takes a grant, or refuses and changes nothing.
    fn take(&mut self, grant: u8, size: u8) -> bool
        ensures answer { result ≡ takes radio (state self.old) grant size }
        ensures state { state self.new ≡ after_take radio (state self.old) grant size };

    // Gives a grant back, or refuses where it is not held.
    fn give(&mut self, grant: u8) -> bool
        ensures answer { result ≡ gives radio (state self.old) grant }
        ensures state { state self.new ≡ after_give radio (state self.old) grant };

    // What a sound state holds and admits.
    ghost lawful: { (x : radio.State) → radio.sound x → Lawful radio x };

    // What a take that is obeyed does to a sound state.
    ghost taken: { (x : radio.State) (g s : ℕ) → radio.sound x → takes radio x g s ≡ true → Taken radio x g s };

    // What a give that is obeyed does to a sound state.
    ghost given: { (x : radio.State) (g : ℕ) → radio.sound x → gives radio x g ≡ true → Given radio x g };
}
