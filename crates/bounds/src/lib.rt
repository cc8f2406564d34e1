// How many reports a call makes at most: see specs/.
#![tactic(auto)]

ghost use Rattle.bounds.specs.Bounds.{ItemsBounded, ReportsWithin};

use admission::RadioPool;

// It does nothing, and carries that no received frame has more than 32 items,
// and that over a kind of pool no call makes more than 288 reports, in every state with tables of at most their sizes.
pub fn reports_bounded<P: RadioPool>()
    ensures items { ItemsBounded }
    ensures reports { ReportsWithin P.RadioPool.radio }
{}
