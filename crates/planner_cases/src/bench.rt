//! What the cases need: a bench to write books on, and what searches tell.
use counting::{Counting, Shown};
use example::{example_rules, rule, wish};
use list_network::ListNetwork;
use network::Network;
use planner::{Draft, Search};
use problem::{Constraint, Disjunct, Kind, Refusal};
use search::Word;
use square_network::SquareNetwork;
use std::alloc::{AllocError, Global};
use std::process::Abort;
use std::test::Fail;

/// What a search tells: its word, its cost as shown, and the rules given up.
#[derive(Clone, Copy, PartialEq, Eq, Debug)]
pub(crate) struct Told {
    pub word: Word,
    pub cost: Shown,
    pub given: u32,
}

impl Told {
    /// A word, a cost and the rules given up.
    pub(crate) fn new(word: Word, first: u32, second: u32, given: u32) -> Told {
        let cost = Shown { first, second };
        Told { word, cost, given }
    }

    /// What the search tells.
    pub(crate) fn by<W: Counting, N: Network>(search: &Search<W, N>) -> Told {
        let outcome = search.outcome();
        Told {
            word: outcome.word,
            cost: outcome.cost.shown(),
            given: outcome.given,
        }
    }
}

/// A draft to write books in, with the memory for their rules and the leave to stop where an answer is not the one
/// expected.
#[derive(Drop)]
pub(crate) struct Bench<'a, A, N> {
    pub rt: &'a A,
    heap: Global,
    pub draft: Draft<N>,
}

impl<'a, A: Abort, N: Network + Drop> Bench<'a, A, N> {
    /// A bench with a new draft.
    fn new(rt: &'a A, heap: Global, network: N) -> Result<Bench<'a, A, N>, AllocError> {
        let draft = Draft::new(heap, network)?;
        Ok(Bench { rt, heap, draft })
    }

    /// Takes out all rules, and sets the day.
    pub(crate) fn day(&mut self, events: usize, horizon: u32) -> Result<(), Refusal> {
        for _ in 0..self.draft.rules().len() {
            self.draft.drop(0)?;
        }
        self.draft.set(events, horizon)
    }

    /// Puts a rule last, or tells why it is refused.
    fn put(&mut self, rule: Constraint) -> Result<(), Refusal> {
        self.draft
            .adopt(rule)
            .map_err(|unadopted| unadopted.refusal)
    }

    /// Puts a rule of this kind with these options last, or tells why it is refused.
    pub(crate) fn adopt(
        &mut self,
        kind: Kind,
        options: &[Disjunct],
    ) -> Result<Result<(), Refusal>, AllocError> {
        let rule = rule(self.heap, kind, options)?;
        Ok(self.put(rule))
    }

    /// Puts a firm rule last, which must be granted.
    pub(crate) fn firm(&mut self, options: &[Disjunct]) -> Result<(), Fail> {
        Ok(self.adopt(Kind::Firm, options)??)
    }

    /// Puts a wish last, which costs so many points to give up and must be granted.
    pub(crate) fn wish(&mut self, points: u32, options: &[Disjunct]) -> Result<(), Fail> {
        Ok(self.adopt(wish(points), options)??)
    }

    /// Writes the example: two rounds of one hour, kept apart, with a wish for each.
    pub(crate) fn example(&mut self) -> Result<(), Fail> {
        self.day(3, 60)?;
        for rule in example_rules(self.heap)? {
            self.put(rule)?;
        }
        Ok(())
    }

    /// Closes the draft under the way, presses it to its end in so many steps, holds what it tells and its minutes
    /// against those expected, and reopens it.
    pub(crate) fn ends<W: Counting>(
        self,
        steps: u32,
        told: Told,
        minutes: &[Result<u32, Refusal>],
    ) -> Bench<'a, A, N> {
        let Bench { rt, heap, draft } = self;
        let mut search: Search<W, N> = draft.close();
        assert_eq!(rt; search.press(100_000), Ok(steps));
        assert_eq!(rt; Told::by(&search), told);
        for (event, minute) in minutes.iter().enumerate() {
            assert_eq!(rt; search.read(event), *minute);
        }
        let draft = search.reopen();
        Bench { rt, heap, draft }
    }
}

/// A bench with a list network, and a bench with a square network.
pub(crate) fn benches<A: Abort>(
    rt: &A,
    heap: Global,
) -> Result<(Bench<A, ListNetwork>, Bench<A, SquareNetwork>), AllocError> {
    let list = Bench::new(rt, heap, ListNetwork::new())?;
    let square = Bench::new(rt, heap, SquareNetwork::new(heap)?)?;
    Ok((list, square))
}
