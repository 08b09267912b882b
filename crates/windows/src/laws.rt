//! Laws of the flags. Each is the contract of a function that does nothing.

ghost use Rattle.flat_policy.specs.Laws.Windows.{StarvationLaw, WarpLaw};
ghost use Rattle.windows.specs.Flags.{ChoicesAgree, FillingFollows};
ghost use Rattle.windows.specs.Steps.{EntriesFollowSteps, WindowsFollowSteps};

use flat_policy::laws::setups_have_quanta;

/// Where the flags say which lanes of a queue have entries, the choice among the filled lanes is
/// the queue's choice by deadlines.
pub fn choices_agree()
    ensures { ChoicesAgree }
{}

/// Where each flag is a test of its lane, the flags with one lane filled are the flags of the test
/// that holds of that lane, too.
pub fn filling_follows()
    ensures { FillingFollows }
{}

/// After a thread enters, its lane has entries; after that, after an entry leaves or is selected, and
/// after a refresh, every other lane has entries exactly where it had some.
pub fn entries_follow_steps()
    ensures { EntriesFollowSteps }
{}

/// Where the windows are those of a well-formed queue, they are those of the queue after each step, once
/// the calls of that step were made: `fill` where a thread entered an empty timeshare lane, `clear` where
/// the last entry of one left, and `expire` and then `choose` for a select.
pub fn windows_follow_steps()
    ensures { WindowsFollowSteps }
{}

/// In every run of a cluster, a lane passes earlier deadlines only until its warp has lasted, from
/// the first time that it passed since it was last chosen by its deadline.
pub fn warp_law()
    ensures { WarpLaw }
{}

/// In every run of a cluster, a lane is starved only until its starvation window has lasted, from
/// the first time since its deadline was last renewed. A select that comes at the end of the window
/// or later renews the deadline before it chooses; so do a choice by deadline, and a thread that
/// enters the empty lane.
pub fn starvation_law()
    ensures { StarvationLaw }
{
    setups_have_quanta();
}
