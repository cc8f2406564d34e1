// What holds of every radio pool, by its laws alone.
ghost use Rattle.admission.specs.Undone.{GiveUndoesTake};

use crate::RadioPool;

// Carries the theorem for the pool P: a give undoes a take, for every answer on what is held and what is admitted.
pub fn give_undoes_take<P: RadioPool>()
    ensures { GiveUndoesTake P.RadioPool.radio }
{}
