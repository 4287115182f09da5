//! The step of a search, and many of them with the network kept loaded.
ghost use Rattle.std.specs.Prelude.{◌≡◌, ℕ, ◌<◌, ◌≤◌, true, [], length, Some, slice_index};
ghost use Rattle.problem.specs.Problems.{rules_of};
ghost use Rattle.network.specs.Nets.{Earliest};
ghost use Rattle.search.specs.Searches.{Step};
ghost use Rattle.search.specs.Tests.{selects};
ghost use Rattle.planner.specs.Advancing.{Advanced};
ghost use Rattle.planner.specs.Choosing.{Choices};
ghost use Rattle.planner.specs.Facts.{SoundPlan, SoundProgress, state_of};
ghost use Rattle.planner.specs.Loading.{Loaded, Stands};
ghost use Rattle.planner.specs.Stepping.{kept_best, Ready, Pressed};
ghost use Rattle.planner.specs.declared.progress.Plan.{Plan};

use crate::advance::raise;
use crate::cursor::Cursor;
use crate::progress::{Choices, Plan, Progress};
use crate::selection::Selection;
use arrayvec::ArrayVec;
use counting::Counting;
use network::Network;
use problem::{Day, MAX_EVENTS, Problem};

/// The smallest minutes of the first `events` events that the network allows.
fn earliest_minutes<N: Network>(network: &N, events: usize) -> ArrayVec<u32, MAX_EVENTS>
    requires { events ≡ (N.Network.net network.now).day.events }
    ensures each { length result.items ≡ events }
    ensures earliest { (i : ℕ) → i < events → Earliest (N.Network.net network.now) i (slice_index result.items i) }
{
    let mut minutes = ArrayVec::new();
    for event in 0..events {
        minutes.push(network.earliest(event).unwrap());
    }
    minutes
}

/// The network is given the day, and has no limits.
fn empty<N: Network>(network: &mut N, day: Day)
    ensures { N.Network.net network.new ≡ record { day = day; limits = [] } }
{
    network.reset(day.events(), day.horizon()).unwrap();
}

/// The price of the plan, if one is kept.
fn plan_price<W: Counting>(problem: &Problem, progress: &Progress) -> Option<W>
    requires { SoundProgress problem.now.day (rules_of problem.now) progress.now }
    ensures { result ≡ kept_best W.Counting.way (rules_of problem.now) progress.now }
{
    let plan = progress.plan.as_ref()?;
    Some(plan.selection(problem).price())
}

impl<W: Counting, N: Network> Cursor<'_, W, N> {
    /// The selection as a plan, where the whole of it is loaded.
    fn plan(&self, selection: Selection) -> Plan
        requires whole { self.now.depth ≡ length selection.choices.now }
        requires stands { Stands selection self.now.depth (N.Network.net self.now.network.now) }
        ensures choices { result.choices.items ≡ selection.entry.choices.now }
        ensures sound { SoundPlan selection.entry.problem.now.day (rules_of selection.entry.problem.now) result }
    {
        Plan {
            choices: Choices::try_from(selection.choices).unwrap(),
            minutes: earliest_minutes(self.network, selection.problem.day().events()),
        }
    }

    /// The first selection behind all that begin with the first `shared` choices of the position, if there is one.
    /// Unloads what it does not share with them.
    fn turn(&mut self, problem: &Problem, mut position: Choices, shared: usize) -> Option<Choices>
        requires placed { selects (rules_of problem.now) position.items ≡ true }
        requires within { shared ≤ length position.items }
        requires loaded { Loaded problem.now.day (rules_of problem.now) position.items self.old.depth (N.Network.net self.old.network.now) }
        ensures advanced { Advanced (rules_of problem.now) position.items shared result }
        ensures loaded { (next : Choices) → result ≡ Some next → Loaded problem.now.day (rules_of problem.now) next.items self.new.depth (N.Network.net self.new.network.now) }
        ensures best { self.new.best ≡ self.old.best }
    {
        let selection = Selection {
            problem,
            choices: &position,
        };
        let i = selection.raisable(shared)?;
        self.unload(selection, i);
        raise(&mut position, i);
        Some(position)
    }

    /// One step: the position's shortest hopeless prefix is settled, or the position becomes the plan. The next
    /// position, if there is one.
    fn step(
        &mut self,
        problem: &Problem,
        position: Choices,
        plan: &mut Option<Plan>,
    ) -> Option<Choices>
        requires { Ready W.Counting.way problem.now.day (rules_of problem.now) (record { position = Some position; plan = plan.old }) self.old.best self.old.depth (N.Network.net self.old.network.now) }
        ensures step { Step W.Counting.way problem.now.day (rules_of problem.now) (state_of (record { position = Some position; plan = plan.old })) (state_of (record { position = result; plan = plan.new })) }
        ensures ready { Ready W.Counting.way problem.now.day (rules_of problem.now) (record { position = result; plan = plan.new }) self.new.best self.new.depth (N.Network.net self.new.network.now) }
    {
        let selection = Selection {
            problem,
            choices: &position,
        };
        match self.probe(selection) {
            Some(hopeless) => self.turn(problem, position, hopeless),
            None => {
                *plan = Some(self.plan(selection));
                self.best = Some(selection.price());
                let whole = position.len();
                self.turn(problem, position, whole)
            }
        }
    }
}

/// Makes `limit` steps, or fewer if the search ends first, and says how many.
pub(crate) fn run<W: Counting, N: Network>(
    problem: &Problem,
    progress: &mut Progress,
    network: &mut N,
    limit: u32,
) -> u32
    requires sound { SoundProgress problem.now.day (rules_of problem.now) progress.old }
    ensures sound { SoundProgress problem.now.day (rules_of problem.now) progress.new }
    ensures pressed { Pressed W.Counting.way problem.now.day (rules_of problem.now) (state_of progress.old) limit result (state_of progress.new) }
{
    empty(network, problem.day());
    let mut cursor: Cursor<W, N> = Cursor {
        network,
        depth: 0,
        best: plan_price(problem, progress),
    };
    for made in 0..limit {
        let Some(position) = progress.position.take() else {
            return made;
        };
        progress.position = cursor.step(problem, position, &mut progress.plan);
    }
    limit
}
