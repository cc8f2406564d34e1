// The sizes of the grants that a pool holds, by grant number.
ghost use Rattle.std.specs.Prelude.{◌≡◌, ◌<◌, ◌&&◌, ◌==◌, nat_lt, if◌then◌else◌};
ghost use Rattle.rules.specs.Radio.{put};
ghost use Rattle.admission.specs.Views.{size_of};

// No Option: a size of 0 is not held, as the rules have it.
#[derive(Clone, Copy)]
pub(crate) struct Sizes {
    held: [u8; 64],
}

impl Sizes {
    // Nothing is held.
    pub(crate) fn empty() -> Self
        ensures { size_of result ≡ (λ _. 0) }
    {
        Sizes { held: [0; 64] }
    }

    // The size of a grant, or 0 where it is not held. No number over 63 is.
    // That it is a byte is said because a sum of sizes has to fit.
    pub(crate) fn of(&self, grant: u8) -> u8
        ensures value { result ≡ size_of self.now grant }
        ensures number { 0 < result → grant < 64 }
        ensures byte { result < 256 }
    {
        self.held.get(usize::from(grant)).copied().unwrap_or(0)
    }

    // Whether a number may be taken: it is below 64, and not held.
    pub(crate) fn may_take(&self, grant: u8) -> bool
        ensures { result ≡ (nat_lt grant 64 && size_of self.now grant == 0) }
    {
        self.held.get(usize::from(grant)) == Some(&0)
    }

    pub(crate) fn take(&mut self, grant: u8, size: u8)
        requires { grant < 64 }
        ensures { size_of self.new ≡ put (size_of self.old) grant size }
    {
        self.held[usize::from(grant)] = size;
    }

    // Gives a grant back, or refuses where it is not held. It answers a bool, as the pools' `give` has to.
    pub(crate) fn give(&mut self, grant: u8) -> bool
        ensures answer { result ≡ nat_lt 0 (size_of self.old grant) }
        ensures sizes { size_of self.new ≡ (if result then put (size_of self.old) grant 0 else size_of self.old) }
    {
        if self.of(grant) == 0 {
            return false;
        }
        self.held[usize::from(grant)] = 0;
        true
    }
}
