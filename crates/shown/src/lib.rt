// Worked examples, computed from the definitions that the contracts cite.
#![tactic(auto)]

ghost use Rattle.admission.specs.Rate.{rates};
ghost use Rattle.admission.specs.Tree.{codes};
ghost use Rattle.admission.specs.Undone.{GiveUndoesTake};
ghost use Rattle.shown.specs.Pools.{ShownPools};
ghost use Rattle.shown.specs.Runs.{ShownRuns};
ghost use Rattle.shown.specs.Pitfalls.{ShownPitfalls};

use admission::{CodeTree, RatePool, give_undoes_take};

// Carries the worked examples of the radio pools.
pub fn shown_pools()
    ensures { ShownPools }
{}

// Carries the worked runs of the controller's rules.
pub fn shown_runs()
    ensures { ShownRuns }
{}

// Carries worked cases that are easily mistaken.
pub fn shown_pitfalls()
    ensures { ShownPitfalls }
{}

// Carries for both pools that a give undoes a take.
pub fn shown_undone()
    ensures rate { GiveUndoesTake rates }
    ensures tree { GiveUndoesTake codes }
{
    give_undoes_take::<RatePool>();
    give_undoes_take::<CodeTree>();
}
