// Laws of the rules, over every kind of radio pool and in every state. Each is carried by a function that does nothing: see specs/.
#![tactic(auto)]

ghost use Rattle.laws.specs.Victims.{CandidatesInOrder, ShortestFronts};
ghost use Rattle.laws.specs.Granted.{RoomIsHad};
ghost use Rattle.laws.specs.Serving.{QueueInOrder};
ghost use Rattle.laws.specs.Frames.{ReleasesFirst};
ghost use Rattle.laws.specs.Items.{EachItemAnsweredOnce};
ghost use Rattle.laws.specs.Trade.{LessIsAlwaysDone};
ghost use Rattle.laws.specs.Reasons.{SmallestReasonWins};
ghost use Rattle.laws.specs.Carried.{CarriedAlike};

use admission::RadioPool;

// Which RABs a request may pre-empt, and in which order.
pub fn candidates_in_order<P: RadioPool>()
    ensures { CandidatesInOrder P.RadioPool.radio }
{}

// Which of them it pre-empts.
pub fn victims_are_the_shortest_front<P: RadioPool>()
    ensures { ShortestFronts P.RadioPool.radio }
{}

// What a request that is done leaves in the pool and in the table.
pub fn room_is_had<P: RadioPool>()
    ensures { RoomIsHad P.RadioPool.radio }
{}

// How the queue is served.
pub fn queue_in_order<P: RadioPool>()
    ensures { QueueInOrder P.RadioPool.radio }
{}

// In which order the items of a frame have their turn.
pub fn releases_come_first<P: RadioPool>()
    ensures { ReleasesFirst P.RadioPool.radio }
{}

// What an item of a RAB ASSIGNMENT REQUEST reports.
pub fn each_item_answered_once<P: RadioPool>()
    ensures { EachItemAnsweredOnce P.RadioPool.radio }
{}

// A modification to the size in use or less is done at its turn.
pub fn less_is_always_done<P: RadioPool>()
    ensures { LessIsAlwaysDone P.RadioPool.radio }
{}

// Which reason a refused call is given.
pub fn smallest_reason_wins<P: RadioPool>()
    ensures { SmallestReasonWins P.RadioPool.radio }
{}

// A controller over a pool that is carried into another, and answers there as it did, answers and does the same.
pub fn carried_alike<P: RadioPool, Q: RadioPool>()
    ensures { CarriedAlike P.RadioPool.radio Q.RadioPool.radio }
{}
