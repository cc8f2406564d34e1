// Sets of grant numbers from 0 to 63, as the admission set is one.
ghost use Rattle.std.specs.Prelude.{◌≡◌, ◌<◌, true};
ghost use Rattle.rules.specs.Grants.{nothing, everything};
ghost use Rattle.admission.specs.Member.{member, inserted};

// Seen through `member`, and no Model: the rules' sets are tests, and a Model's value cannot be a function.
// No Default either: `empty` and `full` say which set it is.
#[derive(Clone, Copy)]
pub struct GrantSet {
    named: [bool; 64],
}

impl GrantSet {
    pub fn empty() -> Self
        ensures { member result ≡ nothing }
    {
        GrantSet { named: [false; 64] }
    }

    // All 64 numbers.
    pub fn full() -> Self
        ensures { member result ≡ everything }
    {
        GrantSet { named: [true; 64] }
    }

    // Whether a number is in the set. None over 63 ever is.
    pub fn contains(&self, grant: u8) -> bool
        ensures answer { result ≡ member self.now grant }
        ensures number { result ≡ true → grant < 64 }
    {
        self.named.get(usize::from(grant)) == Some(&true)
    }

    // A number over 63 is no grant's, and changes nothing.
    pub fn insert(&mut self, grant: u8)
        ensures { member self.new ≡ inserted (member self.old) grant }
    {
        // Not by `get_mut`: the proof does not know what a write through it leaves in an array.
        if grant < 64 {
            self.named[usize::from(grant)] = true;
        }
    }
}
