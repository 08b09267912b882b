//! Worked runs, as theorems: the definitions compute to the answers that the run shows.

ghost use Rattle.worked_examples.specs.Rows.Queues.{ArrivalOrder, HeadAndPull, RefusalsInOrder, EntersAgain, DecayLowers, TwoInOneUnit};
ghost use Rattle.worked_examples.specs.Rows.Choices.{WarpAndStarvation, AboveUiEqual, AboveUiLower, GroupsTakeTurns, WaitingScores, WaitingScoresEqual, ScoresByGroup, BoundBeforeUnbound, NoWarp, WithWarp};
ghost use Rattle.worked_examples.specs.Rows.Edges.{BoundThreads, AimNeedsLooks, AimStays, Offers, PulledFromTheMiddle, OffAndOn, OffAlone, Moments};

/// The run `arrival_order_lines`.
pub fn arrival_order()
    ensures { ArrivalOrder }
{}

/// The run `head_and_pull_lines`.
pub fn head_and_pull()
    ensures { HeadAndPull }
{}

/// The run `refusals_in_order_lines`.
pub fn refusals_in_order()
    ensures { RefusalsInOrder }
{}

/// The run `enters_again_lines`.
pub fn enters_again()
    ensures { EntersAgain }
{}

/// The run `decay_lowers_lines`.
pub fn decay_lowers()
    ensures { DecayLowers }
{}

/// The run `two_in_one_unit_lines`.
pub fn two_in_one_unit()
    ensures { TwoInOneUnit }
{}

/// The run `warp_and_starvation_lines`.
pub fn warp_and_starvation()
    ensures { WarpAndStarvation }
{}

/// The run `above_ui_equal_lines`.
pub fn above_ui_equal()
    ensures { AboveUiEqual }
{}

/// The run `above_ui_lower_lines`.
pub fn above_ui_lower()
    ensures { AboveUiLower }
{}

/// The run `groups_take_turns_lines`.
pub fn groups_take_turns()
    ensures { GroupsTakeTurns }
{}

/// The run `waiting_scores_lines`.
pub fn waiting_scores()
    ensures { WaitingScores }
{}

/// The run `waiting_scores_equal_lines`.
pub fn waiting_scores_equal()
    ensures { WaitingScoresEqual }
{}

/// The run `scores_by_group_lines`.
pub fn scores_by_group()
    ensures { ScoresByGroup }
{}

/// The run `bound_before_unbound_lines`.
pub fn bound_before_unbound()
    ensures { BoundBeforeUnbound }
{}

/// The run `no_warp_lines`.
pub fn no_warp()
    ensures { NoWarp }
{}

/// The run `with_warp_lines`.
pub fn with_warp()
    ensures { WithWarp }
{}

/// The run `bound_threads_lines`.
pub fn bound_threads()
    ensures { BoundThreads }
{}

/// The run `aim_needs_looks_lines`.
pub fn aim_needs_looks()
    ensures { AimNeedsLooks }
{}

/// The run `aim_stays_lines`.
pub fn aim_stays()
    ensures { AimStays }
{}

/// The run `offers_lines`.
pub fn offers()
    ensures { Offers }
{}

/// The run `pulled_from_the_middle_lines`.
pub fn pulled_from_the_middle()
    ensures { PulledFromTheMiddle }
{}

/// The run `off_and_on_lines`.
pub fn off_and_on()
    ensures { OffAndOn }
{}

/// The run `off_alone_lines`.
pub fn off_alone()
    ensures { OffAlone }
{}

/// The run `moments_lines`.
pub fn moments()
    ensures { Moments }
{}
