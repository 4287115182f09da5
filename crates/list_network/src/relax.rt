//! The smallest minutes that limits leave to events: minutes are raised, limit by limit, until they rest.
ghost use Rattle.std.specs.Prelude.{◌≡◌, length};
ghost use Rattle.problem.specs.Bounds.{max_events};
ghost use Rattle.problem.specs.Timetables.{OfDay, minute};
ghost use Rattle.network.specs.Limits.{Lawful};

use network::{Limit, LimitList};
use problem::{MAX_EVENTS, Refusal};

/// What limits did to the minutes.
#[derive(Clone, Copy)]
enum Effect {
    /// The minutes keep the limits already.
    Rest,
    /// Some minute was raised.
    Raised,
}

impl Effect {
    ghost use Rattle.std.specs.Prelude.{◌≡◌};
    ghost use Rattle.list_network.specs.Effects.{joint};

    /// This effect and a later one together.
    fn then(self, later: Effect) -> Effect
        ensures { result ≡ joint self later }
    {
        match later {
            Effect::Rest => self,
            Effect::Raised => Effect::Raised,
        }
    }
}

/// No timetable of the day keeps all limits.
#[derive(Clone, Copy)]
pub(crate) struct Clash;

impl From<Clash> for Refusal {
    ghost use Rattle.std.specs.Prelude.{◌≡◌};
    ghost use Rattle.problem.specs.declared.refusal.Refusal.TheVariants as refused;

    ghost from_gives = { λ _ refusal. refusal ≡ refused.Clash };

    fn from(_clash: Clash) -> Refusal {
        Refusal::Clash
    }
}

/// Minutes that rested under the limits until a newest one came, and are raised on its account.
#[derive(Drop)]
pub(crate) struct Relaxation<'a> {
    limits: &'a LimitList,
    newest: Limit,
    pub(crate) times: [u16; MAX_EVENTS],
    ghost lawful: { Lawful limits.now.day newest },
    ghost size: { length times ≡ max_events },
    ghost timetable: { OfDay limits.now.day (minute times) },
}

impl<'a> Relaxation<'a> {
    ghost use Rattle.std.specs.Prelude.{◌≡◌, [], ◌∷◌};
    ghost use Rattle.list_network.specs.Relaxing.{SameLimits, Relaxed, Settled, all_limits};

    /// The minutes, before any limit has raised them.
    pub(crate) fn new(
        limits: &'a LimitList,
        newest: Limit,
        times: [u16; MAX_EVENTS],
    ) -> Relaxation<'a>
        requires lawful { Lawful limits.now.day newest }
        requires size { length times ≡ max_events }
        requires timetable { OfDay limits.now.day (minute times) }
        ensures limits { result.limits.now ≡ limits.now }
        ensures newest { result.newest ≡ newest }
        ensures times { result.times ≡ times }
    {
        Relaxation {
            limits,
            newest,
            times,
        }
    }

    /// Raises the minute of the limit's `y` to the least that the limit leaves to it. Clashes where that is after the
    /// horizon or `y` is event 0, and where `y` is the `x` of the newest limit: minutes that rested before it came
    /// rise only on its account, and a rise that comes back to where it began would go round for ever.
    fn relax(&mut self, limit: Limit) -> Result<Effect, Clash>
        requires { Lawful self.old.limits.now.day limit }
        ensures same { SameLimits self.old self.new }
        ensures times { Relaxed self.old (limit ∷ []) result self.new.times }
    {
        let least = i32::from(self.times[limit.x]) - limit.bound;
        if least <= i32::from(self.times[limit.y]) {
            return Ok(Effect::Rest);
        }
        let horizon = self.limits.day().horizon() as i32;
        if limit.y == 0 || limit.y == self.newest.x || least > horizon {
            return Err(Clash);
        }
        self.times[limit.y] = least as u16;
        Ok(Effect::Raised)
    }

    /// Relaxes each limit once, the newest last.
    fn round(&mut self) -> Result<Effect, Clash>
        ensures same { SameLimits self.old self.new }
        ensures times { Relaxed self.old (all_limits self.old) result self.new.times }
    {
        let mut effect = Effect::Rest;
        for limit in self.limits.as_slice() {
            effect = effect.then(self.relax(*limit)?);
        }
        Ok(effect.then(self.relax(self.newest)?))
    }

    /// Relaxes the limits, round after round, until the minutes keep them all.
    pub(crate) fn settle(&mut self) -> Result<(), Clash>
        ensures { Settled self.old result self.new.times }
    {
        while let Effect::Raised = self.round()? {}
        Ok(())
    }
}
