// The grants that a question for room names.
ghost use Rattle.admission.specs.Member.{member};
ghost use Rattle.rabctl.specs.Grants.{named_set};
ghost use Rattle.std.specs.Prelude.{◌≡◌};

use admission::GrantSet;

// The set of the numbers that are named. One over 63 is no grant's, and is not in it.
pub fn named_set(named: &[u8]) -> GrantSet
    ensures { member result ≡ named_set named.now }
{
    let mut set = GrantSet::empty();
    for grant in named {
        set.insert(*grant);
    }
    set
}
