//! Laws that show that the definitions say what is meant. Each is the contract of a function that does nothing.

ghost use Rattle.flat_policy.specs.Laws.Choice.{ChoiceIsOne, ChoiceGoesByMembers};
ghost use Rattle.flat_policy.specs.Laws.Clusters.{CallsKeepClusters, CallsKeepStanding, EntriesLeaveByPlace};
ghost use Rattle.flat_policy.specs.Laws.Kept.{EmptyIsWellFormed, HistoriesKeepWellFormed, StepsKeepWellFormed, StepsRiseByFew};
ghost use Rattle.flat_policy.specs.Laws.Aims.{AimMayBeEntered, LightestGainsMost};
ghost use Rattle.flat_policy.specs.Laws.Offers.{MaskedOffersByLane, OffersAreOne, OffersWhatMayBeTaken};
ghost use Rattle.flat_policy.specs.Laws.Orders.{LanesAreOrdered, TargetsAreOrdered};
ghost use Rattle.flat_policy.specs.Laws.Units.{FilledLaneHasFirstClutch, FirstGoesByKeys, FirstHasGreatestPriority, FirstOfBoundLane, FirstStandsInClutch, LanePrioritiesAreOfUnits, LanePriorityByEntries, PickStandsInLane};
ghost use Rattle.flat_policy.specs.Laws.Picks.{PrecedesOrders, GoesBeforeOrders, ChoosesAFilledLane, PickIsOne};
ghost use Rattle.flat_policy.specs.Laws.Sound.{EmptyIsSound, FittingPrefersAmong, StepsKeepSound};
ghost use Rattle.flat_policy.specs.Laws.Loads.{LoadIsNotRefused, LoadSleepsOne};
ghost use Rattle.flat_policy.specs.Laws.Places.{LiveIsMadeNotEnded, PlaceIsTheOne, PlaceIsWhereItStands, PrefixesAreHistories, TakersMayTake, WholeRunsKeepPlaces};
ghost use Rattle.flat_policy.specs.Laws.Refreshing.{RefreshesByBucket};
ghost use Rattle.flat_policy.specs.Laws.Windows.{SetupsHaveQuanta};
ghost use Rattle.flat_policy.specs.Laws.Counts.{StepsKeepCounts, RunsKeepCounts, RunsStaySound, RunsStayWithin};
ghost use Rattle.flat_policy.specs.Policy.Queue.{Queued};
ghost use Rattle.flat_policy.specs.Laws.Steps.{ExpiresOnce, RefusalsChangeNothing};

/// Windows that expire twice at one moment are as after once.
pub fn expires_once()
    ensures { ExpiresOnce }
{}

/// A refused step is answered its refusal, moves no thread, and leaves all as it was.
pub fn refusals_change_nothing()
    ensures { RefusalsChangeNothing }
{}

/// Under a strict order of a list's members, the choice of the one that no other precedes is there exactly
/// where there are members, is the only such one, and is what one pass over the list finds.
pub fn choice_is_one<T>()
    ensures { ChoiceIsOne T }
{}

/// The same of entries of a queue.
pub fn choice_of_entries_is_one()
    ensures { ChoiceIsOne Queued }
{}

/// Under a strict order the choice goes by the members alone, and not by where they stand.
pub fn choice_goes_by_members<T>()
    ensures { ChoiceGoesByMembers T }
{}

/// In a well-formed queue, which entry of a unit goes first is a strict order.
pub fn precedes_orders()
    ensures { PrecedesOrders }
{}

/// In a well-formed queue, which entry of a lane goes first in the cluster is a strict order.
pub fn goes_before_orders()
    ensures { GoesBeforeOrders }
{}

/// In a well-formed queue a lane is chosen exactly where there are entries, and it has some.
pub fn chooses_a_filled_lane()
    ensures { ChoosesAFilledLane }
{}

/// In a well-formed queue there is a pick exactly where there are entries: the only entry of the chosen lane
/// that no entry goes before.
pub fn pick_is_one()
    ensures { PickIsOne }
{}

/// A queue without entries is well-formed.
pub fn empty_is_well_formed()
    ensures { EmptyIsWellFormed }
{}

/// Each step at a cluster keeps its queue well-formed: an enter where there is room for one more and the thread
/// fits the setup, a pull of an entry that stands there, and every other.
pub fn steps_keep_well_formed()
    ensures { StepsKeepWellFormed }
{}

/// An aim is a cluster that the thread may enter. It is refused exactly where a cluster that it needs was not
/// looked at, and then it names the lowest such cluster.
pub fn aim_may_be_entered()
    ensures { AimMayBeEntered }
{}

/// An offered entry stands in the queue, and the other cluster may take it; one is offered exactly where some
/// entry may be taken.
pub fn offers_what_may_be_taken()
    ensures { OffersWhatMayBeTaken }
{}

/// Both choices of an offer go by a strict order, so that each has one answer.
pub fn offers_are_one()
    ensures { OffersAreOne }
{}

/// The state before any step is sound: a queue for each cluster, a hand for each actor, and all in range.
pub fn empty_is_sound()
    ensures { EmptyIsSound }
{}

/// Each step that the setup fits keeps a state sound.
pub fn steps_keep_sound()
    ensures { StepsKeepSound }
{}

/// Each step that the setup fits leaves each name that was made in one place, and no other name in any.
pub fn steps_keep_counts()
    ensures { StepsKeepCounts }
{}

/// After every run each name that was made stands in one place, and no other name in any.
pub fn runs_keep_counts()
    ensures { RunsKeepCounts }
{}

/// After every run the state is sound.
pub fn runs_stay_sound()
    ensures { RunsStaySound }
{}

/// After every run no more threads live than the setup allows, and each queue is well-formed where that is
/// no more than 4096.
pub fn runs_stay_within()
    ensures { RunsStayWithin }
{}

/// The lanes of a well-formed queue stand in a strict order by when they are due, and in one by how high they
/// stand.
pub fn lanes_are_ordered()
    ensures { LanesAreOrdered }
{}

/// Targets stand in a strict order, so that an aim has one answer.
pub fn targets_are_ordered()
    ensures { TargetsAreOrdered }
{}

/// The pick of a lane that has entries is the first of that lane.
pub fn pick_stands_in_lane()
    ensures { PickStandsInLane }
{}

/// The first of an unbound lane is the first of its first clutch bucket.
pub fn first_stands_in_clutch()
    ensures { FirstStandsInClutch }
{}

/// The first of a bound lane goes by entry alone.
pub fn first_of_bound_lane()
    ensures { FirstOfBoundLane }
{}

/// Every history of a cluster leaves its queue well-formed.
pub fn histories_keep_well_formed()
    ensures { HistoriesKeepWellFormed }
{}

/// How far each step at a cluster raises the next arrival and the next turn.
pub fn steps_rise_by_few()
    ensures { StepsRiseByFew }
{}

/// An aim at a lighter cluster is at the one of the greatest difference.
pub fn lightest_gains_most()
    ensures { LightestGainsMost }
{}

/// What is offered by the mask is the first of the lowest unbound lane in the mask that has entries.
pub fn masked_offers_by_lane()
    ensures { MaskedOffersByLane }
{}

/// An unbound lane with entries has a first clutch bucket.
pub fn filled_lane_has_first_clutch()
    ensures { FilledLaneHasFirstClutch }
{}

/// The entry that goes first among some has their greatest priority.
pub fn first_has_greatest_priority()
    ensures { FirstHasGreatestPriority }
{}

/// The priority of a lane is that of its bound unit, or of its first clutch bucket.
pub fn lane_priorities_are_of_units()
    ensures { LanePrioritiesAreOfUnits }
{}

/// The priority of a lane is the greatest of its entries' priorities with the scores of their units.
pub fn lane_priority_by_entries()
    ensures { LanePriorityByEntries }
{}

/// A refresh goes by buckets, and the clutch buckets of UI take no turn.
pub fn refreshes_by_bucket()
    ensures { RefreshesByBucket }
{}

/// A thread that fits a built setup prefers one of its clusters.
pub fn fitting_prefers_among()
    ensures { FittingPrefersAmong }
{}

/// No cluster of a built setup has a quantum of 0.
pub fn setups_have_quanta()
    ensures { SetupsHaveQuanta }
{}

/// The place that is told of a name is the one where it stands.
pub fn place_is_the_one()
    ensures { PlaceIsTheOne }
{}

/// Where a name stands is the place that is told of it.
pub fn place_is_where_it_stands()
    ensures { PlaceIsWhereItStands }
{}

/// Each prefix of a history of the machine is one.
pub fn prefixes_are_histories()
    ensures { PrefixesAreHistories }
{}

/// The threads that live are those made and not ended.
pub fn live_is_made_not_ended()
    ensures { LiveIsMadeNotEnded }
{}

/// A thread that an offer hands out may be taken along its edge, and a thread that enters may enter.
pub fn takers_may_take()
    ensures { TakersMayTake }
{}

/// After each prefix of a whole run every name that was made stands in exactly one place.
pub fn whole_runs_keep_places()
    ensures { WholeRunsKeepPlaces }
{}

/// No step of the load is refused.
pub fn load_is_not_refused()
    ensures { LoadIsNotRefused }
{}

/// At most one thread of the load sleeps.
pub fn load_sleeps_one()
    ensures { LoadSleepsOne }
{}

/// The first of a lane is found in one pass over its entries, by the priority with the score of the unit, then the
/// turn of the unit, and in one unit the order number.
pub fn first_goes_by_keys()
    ensures { FirstGoesByKeys }
{}

/// After each call every cluster keeps what it kept before.
pub fn calls_keep_clusters()
    ensures { CallsKeepClusters }
{}

/// Each call leaves every thread standing in its slot, but for the one that leaves.
pub fn calls_keep_standing()
    ensures { CallsKeepStanding }
{}

/// An entry leaves the entries, and its slot the slots, at its place.
pub fn entries_leave_by_place()
    ensures { EntriesLeaveByPlace }
{}
