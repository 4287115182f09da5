//! How the searches of the small books end, shown of the definitions.
ghost use Rattle.small_books.specs.Theorems.{ExampleEnds, NothingToPlan, ExcludingRules, EdgeOfTheDay, EventsAtOnce, RingOfGaps};
ghost use Rattle.small_books.specs.Theorems.{TwoAgainstOne, BreachOrPoints, DearerFirst, FreePlanEnds, AboveTakesThree, FirstPlanIsNotProved};

/// The theorem: the example ends after six steps with PROVED, cost 10 and minutes 0, 15, 0.
pub fn the_example_takes_six_steps()
    ensures { ExampleEnds }
{}

/// The theorem: a day of one event without rules ends after one step with PROVED and cost 0.
pub fn nothing_to_plan_takes_one_step()
    ensures { NothingToPlan }
{}

/// The theorem: two firm rules that exclude each other end after one step with NONE.
pub fn rules_that_exclude_each_other_allow_nothing()
    ensures { ExcludingRules }
{}

/// The theorem: an event may come at the last minute of the day, and not a minute later.
pub fn an_event_may_come_at_the_horizon()
    ensures { EdgeOfTheDay }
{}

/// The theorem: two events that come together, one of them at 3 to 9, both come at 3.
pub fn events_at_once_come_as_early_as_they_can()
    ensures { EventsAtOnce }
{}

/// The theorem: three events that each come after the next end with NONE.
pub fn a_ring_of_gaps_allows_nothing()
    ensures { RingOfGaps }
{}

/// The theorem: of two like wishes against a third, SUM gives up the third, and WORST the two.
pub fn sum_and_worst_give_up_different_wishes()
    ensures { TwoAgainstOne }
{}

/// The theorem: TIER pays 500 points to avoid a breach, and SUM does not.
pub fn a_breach_outweighs_points_only_by_tier()
    ensures { BreachOrPoints }
{}

/// The theorem: where the dearer option is stated first, the search tells SHORT with 5 after one step, and PROVED with 0
/// after three.
pub fn the_first_plan_may_be_dearer()
    ensures { DearerFirst }
{}

/// The theorem: once a plan of price zero is kept, the next step settles all that is left.
pub fn a_free_plan_ends_the_search()
    ensures { FreePlanEnds }
{}

/// The theorem: a search that calls a prefix hopeless only above the kept price takes three steps where two will do.
pub fn hopeless_only_above_takes_a_step_more()
    ensures { AboveTakesThree }
{}

/// The theorem: a search that keeps its first plan and calls everything settled does not have the verdict of an ended
/// search.
pub fn first_plan_need_not_be_optimal()
    ensures { FirstPlanIsNotProved }
{}
