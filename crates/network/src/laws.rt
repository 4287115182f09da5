//! What follows from the meaning of a network alone, for any of them.
ghost use Rattle.network.specs.Laws.{MinimumSolves, SmallestSolve, OrderIsFree, ShorterSolvable};

/// The theorem: of two timetables that meet the list, the earlier minutes of both together are one too.
pub fn minimum_of_solutions_is_a_solution()
    ensures { MinimumSolves }
{}

/// The theorem: the smallest minutes of all events are together a timetable that meets the list.
pub fn smallest_minutes_solve_together()
    ensures { SmallestSolve }
{}

/// The theorem: the same limits in another order are met by the same timetables.
pub fn order_of_limits_is_free()
    ensures { OrderIsFree }
{}

/// The theorem: a timetable that meets a list meets what is left of it when limits are taken off.
pub fn a_shorter_list_stays_solvable()
    ensures { ShorterSolvable }
{}
