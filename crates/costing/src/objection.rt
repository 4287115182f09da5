//! Why minutes have no cost.
ghost use Rattle.std.specs.Prelude.{◌≡◌};

use problem::Flaw;

/// Why minutes have no cost.
#[derive(Clone, Copy, PartialEq, Eq, Debug)]
pub enum Objection {
    /// They are no timetable of the day.
    NoTimetable(Flaw),
    /// They meet no option of this firm rule, the first such, counted from 0.
    Forbidden { rule: usize },
}

impl From<Flaw> for Objection {
    ghost use Rattle.costing.specs.declared.objection.Objection.TheVariants.{NoTimetable};

    ghost from_gives = { λ flaw objection. objection ≡ NoTimetable flaw };

    fn from(flaw: Flaw) -> Objection {
        Objection::NoTimetable(flaw)
    }
}
