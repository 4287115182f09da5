//! What is proved of every search, from its meaning alone, for every way of counting that keeps the laws.
ghost use Rattle.search.specs.Theorems.{SettledNoCheaper, EndedOptimal, StepsDetermine, OrderFree, Ends, SmallestTogether};

/// The theorem: in any search, a settled selection that some timetable meets has a price no lower than the plan's, and
/// without a plan no timetable meets a settled selection.
pub fn settled_selections_are_no_cheaper<Cost>()
    ensures { SettledNoCheaper Cost }
{}

/// The theorem: an ended search keeps no plan exactly when no timetable is allowed. Otherwise the smallest minutes of
/// all events under its plan are an allowed timetable that costs the plan's price, and no allowed timetable costs less.
pub fn an_ended_search_is_optimal<Cost>()
    ensures { EndedOptimal Cost }
{}

/// The theorem: under the same rules in another order, each as often, every timetable costs the same, and ended
/// searches both keep no plan, or plans of equal price.
pub fn order_of_rules_is_free<Cost>()
    ensures { OrderFree Cost }
{}

/// The theorem: way, day, rules and number of steps determine which selections are settled and which plan is kept.
pub fn steps_determine_a_search<Cost>()
    ensures { StepsDetermine Cost }
{}

/// The theorem: a running search has a next step, and a search ends after at most as many steps as there are
/// selections.
pub fn a_search_ends_within_its_selections<Cost>()
    ensures { Ends Cost }
{}

/// The theorem: a feasible selection is met by one timetable that gives every event its smallest minute.
pub fn smallest_minutes_meet_a_selection_together()
    ensures { SmallestTogether }
{}
