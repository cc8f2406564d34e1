// A pool that shares out a rate: the sizes held together never pass its capacity.
ghost use Rattle.std.specs.Prelude.{◌≡◌};
ghost use Rattle.admission.specs.Member.{member};
ghost use Rattle.admission.specs.Rate.{rates, fresh, load};
ghost use Rattle.admission.specs.Views.{rate_of};
ghost use Rattle.admission.specs.RateLaws;

use crate::sizes::Sizes;
use crate::{GrantSet, RadioPool};

#[derive(Clone, Copy)]
pub struct RatePool {
    capacity: u16,
    sizes: Sizes,
}

impl RatePool {
    // A pool with nothing taken. A capacity outside 1 to 4,096 is moved to the nearer end.
    pub fn new(capacity: u16) -> Self
        ensures state { rate_of result ≡ fresh capacity }
        ensures sound { rates.sound (rate_of result) }
    {
        RatePool {
            capacity: capacity.clamp(1, 4096),
            sizes: Sizes::empty(),
        }
    }

    // The sizes that are not given back, added up.
    // The test stands in the `map`: behind a `filter`, the sum is a loop in a loop.
    fn load(&self, given: &GrantSet) -> u16
        ensures { result ≡ load (rate_of self.now) (member given.now) }
    {
        (0..64u8)
            .map(|grant| {
                if given.contains(grant) {
                    0
                } else {
                    u16::from(self.sizes.of(grant))
                }
            })
            .sum()
    }
}

impl RadioPool for RatePool {
    ghost radio = { rates };

    ghost state = { rate_of };

    ghost lawful = { RateLaws.lawful };

    ghost taken = { RateLaws.taken };

    ghost given = { RateLaws.given };

    fn held(&self, grant: u8) -> u8 {
        self.sizes.of(grant)
    }

    fn room(&self, given: &GrantSet, size: u8) -> bool {
        0 < size
            && size <= 64
            && u32::from(self.load(given)) + u32::from(size) <= u32::from(self.capacity)
    }

    fn take(&mut self, grant: u8, size: u8) -> bool {
        if !self.sizes.may_take(grant) || !self.room(&GrantSet::empty(), size) {
            return false;
        }
        self.sizes.take(grant, size);
        true
    }

    fn give(&mut self, grant: u8) -> bool {
        self.sizes.give(grant)
    }
}
