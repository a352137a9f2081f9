//! Laws of the definitions. Each function is a law: it does nothing, and what it ensures holds of every value.

ghost use Rattle.std.specs.Prelude.{ℕ, List};
ghost use Rattle.plain_model.specs.Told.{EachUnitIsFair};
ghost use Rattle.plain_model.specs.Sound.{EachCoreIsSound};
ghost use Rattle.plain_model.specs.Repeats.{NoRepeatNeedsData};
ghost use Rattle.plain_model.specs.Succeeds.{EachRepeatSucceeds};
ghost use Rattle.plain_model.specs.InWork.{LossIsTold, StaysInWork, CanRunAgain, AllAreCounted};

use crate::group::Group;

/// Of each unit of work of each session, whatever happens: it was committed at most once, once where its application was told
/// committed, and never where it was told rolled back or rerouted.
pub fn each_unit_is_fair<G: Group>(_group: &G)
    ensures { (name : List ℕ) → EachUnitIsFair name G.meaning G.is_shared }
{}

/// That a unit was lost is told where an owed error is told, and where no member is left, and nowhere else.
pub fn loss_is_told<G: Group>(_group: &G)
    ensures { LossIsTold G.Unit }
{}

/// While nothing is owed, a segment stays in work until it is answered or its session ends, also where its conversation is
/// lost.
pub fn segments_stay_in_work<G: Group>(_group: &G)
    ensures { (name : List ℕ) → StaysInWork name G.meaning }
{}

/// A loss owes nothing where no commit was sent and the unit is neither spoken nor pinned: it runs again.
pub fn lost_units_can_run_again()
    ensures { CanRunAgain }
{}

/// The commits of all units together are the commands that committed.
pub fn commits_are_counted<G: Group>(_group: &G)
    ensures { (name : List ℕ) → AllAreCounted name G.meaning }
{}

/// Whatever happens, the core of every session is sound: what runs again sets registers alone and isn't too much, nothing is
/// done while an error is owed, and else a server answers the segment in work.
pub fn each_core_is_sound<G: Group>(_group: &G)
    ensures { (name : List ℕ) → EachCoreIsSound name G.meaning }
{}

/// Whatever the data are, the commands that run again after a loss are answered alike, leave the data, and lead to the one unit
/// that the loss leaves; and before its database was accessed a session has done nothing that could be lost.
pub fn repeats_need_no_data<G: Group>(_group: &G)
    ensures { (name : List ℕ) → NoRepeatNeedsData name G.meaning G.is_shared }
{}

/// While a unit is neither spoken nor pinned it is where the commands that run again lead from the base, unless a segment began
/// to run; and run from there they are each answered by one SQLCARD of success, and by no error, whatever the data are then: so
/// what runs again after a loss succeeds.
pub fn each_repeat_succeeds<G: Group>(_group: &G)
    ensures { (name : List ℕ) → EachRepeatSucceeds name G.meaning G.is_shared }
{}
