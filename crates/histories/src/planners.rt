//! A planner in either state, and making one call on it.
ghost use Rattle.std.specs.Prelude.{◌≡◌, ◌≢◌, MatchResult};
ghost use Rattle.histories.specs.declared.calls.Call.{Call};
ghost use Rattle.histories.specs.Histories.{Means};
ghost use Rattle.histories.specs.Views.{draft_view, search_view, view_of};

use crate::calls::{Answer, Call, Rejection, Reply};
use counting::Counting;
use network::Network;
use planner::{Draft, Search};

/// A planner in either state.
#[derive(Drop)]
pub enum Planner<W, N> {
    Draft(Draft<N>),
    Search(Search<W, N>),
}

/// Makes a call on a draft, which stays a draft.
fn on_draft<W: Counting, N: Network>(draft: &mut Draft<N>, call: Call) -> Answer<W>
    requires { call ≢ Call.Close }
    ensures { Means W.Counting.way call (draft_view draft.old) (draft_view draft.new) result }
{
    match call {
        Call::Set { events, horizon } => draft.set(events, horizon)?,
        Call::Adopt(rule) => draft.adopt(rule)?,
        Call::Drop(number) => draft.drop(number)?,
        call => return Err(Rejection::Misplaced(call)),
    }
    Ok(Reply::Done)
}

/// Makes a call on a search, which stays a search.
fn on_search<W: Counting, N: Network>(search: &mut Search<W, N>, call: Call) -> Answer<W>
    requires { call ≢ Call.Reopen }
    ensures { Means W.Counting.way call (search_view search.old) (search_view search.new) result }
{
    match call {
        Call::Press(steps) => Ok(Reply::Stepped(search.press(steps)?)),
        Call::Outcome => Ok(Reply::Told(search.outcome())),
        Call::Read(event) => Ok(Reply::Minute(search.read(event)?)),
        call => Err(Rejection::Misplaced(call)),
    }
}

impl<W: Counting, N: Network> Planner<W, N> {
    /// Makes the call in place where it leaves the planner in its state. Else hands it back, and changes nothing.
    pub(crate) fn apply_in_place(&mut self, call: Call) -> Result<Answer<W>, Call>
        ensures { MatchResult result (λ answer. Means W.Counting.way call (view_of self.old) (view_of self.new) answer) (λ back. (back ≡ call) × (self.new ≡ self.old)) }
    {
        match (self, call) {
            (Planner::Draft(_), Call::Close) => Err(Call::Close),
            (Planner::Search(_), Call::Reopen) => Err(Call::Reopen),
            (Planner::Draft(draft), call) => Ok(on_draft(draft, call)),
            (Planner::Search(search), call) => Ok(on_search(search, call)),
        }
    }

    /// Makes the call, and answers it. A call that does not belong to the planner's state is handed back, and changes
    /// nothing.
    pub fn apply(self, call: Call) -> (Planner<W, N>, Answer<W>)
        ensures { Means W.Counting.way call (view_of self) (view_of result.0) result.1 }
    {
        match (self, call) {
            (Planner::Draft(draft), Call::Close) => (
                Planner::Search(draft.close()),
                Ok(Reply::Done),
            ),
            (Planner::Search(search), Call::Reopen) => (
                Planner::Draft(search.reopen()),
                Ok(Reply::Done),
            ),
            (Planner::Draft(mut draft), call) => {
                let answer = on_draft(&mut draft, call);
                (Planner::Draft(draft), answer)
            }
            (Planner::Search(mut search), call) => {
                let answer = on_search(&mut search, call);
                (Planner::Search(search), answer)
            }
        }
    }
}
