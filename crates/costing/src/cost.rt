//! The cost of a timetable: the costs of its rules, joined in rule order.
ghost use Rattle.costing.specs.Answers.{Costed};

use crate::least::rule_cost;
use crate::objection::Objection;
use counting::Counting;
use problem::{Problem, Timetable};

/// What the minutes, in the order of the events, cost under the problem's rules. Objects where they are no timetable
/// of its day, then where a firm rule forbids them.
pub fn cost_of<W: Counting>(problem: &Problem, minutes: &[u32]) -> Result<W, Objection>
    ensures { Costed W.Counting.way problem.now minutes.now result }
{
    let timetable = Timetable::new(problem.day(), minutes)?;
    let mut total = W::ZERO;
    for (number, rule) in problem.rules().iter().enumerate() {
        let Some(cost) = rule_cost(rule, &timetable) else {
            return Err(Objection::Forbidden { rule: number });
        };
        total = total.join(cost);
    }
    Ok(total)
}
