// The cabinet: a controller over a pool of one of two kinds.
ghost use Rattle.admission.specs.RateLaws;
ghost use Rattle.admission.specs.TreeLaws;
ghost use Rattle.admission.specs.Rate.{rates};
ghost use Rattle.admission.specs.Tree.{codes};
ghost use Rattle.rabctl.specs.Cabinets.{pools, pool_of, new_pool, owns};
ghost use Rattle.rabctl.specs.Either;
ghost use Rattle.rabctl.specs.Either.{AnswersAlone};
ghost use Rattle.rabctl.specs.Own.{LinesAlone};
ghost use Rattle.std.specs.Prelude.{◌≡◌};

use admission::{CodeTree, GrantSet, RadioPool, RatePool};
use controller::Controller;

pub type Cabinet = Controller<Pool>;

// An enum, and so a match in each call below: a trait object over the two pools would want the heap.
#[derive(Clone, Copy)]
pub enum Pool {
    Rate(RatePool),
    Tree(CodeTree),
}

impl Pool {
    // The grant that stands on a leaf of the code tree. A rate pool has no leaves.
    pub fn owner(&self, leaf: u8) -> Option<u8>
        ensures { result ≡ owns leaf (pool_of self.now) }
    {
        match self {
            Pool::Rate(_) => None,
            Pool::Tree(tree) => tree.owner(leaf),
        }
    }
}

// The pool that a cabinet line asks for, with nothing taken.
impl From<script::Pool> for Pool {
    ghost from_gives = { λ kind made. (pool_of made ≡ new_pool kind) × pools.sound (pool_of made) };

    fn from(kind: script::Pool) -> Pool {
        match kind {
            script::Pool::Rate { capacity } => Pool::Rate(RatePool::new(capacity)),
            script::Pool::Tree => Pool::Tree(CodeTree::new()),
        }
    }
}

// Carries that a cabinet's pool answers as the one that it is.
fn answers_alone()
    ensures { AnswersAlone rates codes }
{}

// Carries that each line is answered as by a controller over the cabinet's own pool alone.
fn lines_alone()
    ensures { LinesAlone }
{}

impl RadioPool for Pool {
    ghost radio = { pools };

    ghost state = { pool_of };

    ghost lawful = { Either.lawful rates codes RateLaws.lawful TreeLaws.lawful };

    ghost taken = { Either.taken rates codes RateLaws.taken TreeLaws.taken };

    ghost given = { Either.given rates codes RateLaws.given TreeLaws.given };

    fn held(&self, grant: u8) -> u8 {
        match self {
            Pool::Rate(rate) => rate.held(grant),
            Pool::Tree(tree) => tree.held(grant),
        }
    }

    fn room(&self, given: &GrantSet, size: u8) -> bool {
        match self {
            Pool::Rate(rate) => rate.room(given, size),
            Pool::Tree(tree) => tree.room(given, size),
        }
    }

    fn take(&mut self, grant: u8, size: u8) -> bool {
        match self {
            Pool::Rate(rate) => rate.take(grant, size),
            Pool::Tree(tree) => tree.take(grant, size),
        }
    }

    fn give(&mut self, grant: u8) -> bool {
        match self {
            Pool::Rate(rate) => rate.give(grant),
            Pool::Tree(tree) => tree.give(grant),
        }
    }
}
