//! What certificates show.
ghost use Rattle.certificates.specs.Theorems.{RingClashes, CertificatesStep, EnumerationEnds, ChainsSmallest};

/// The theorem: no timetable of a day keeps limits among which, with those of the horizon, there is a ring whose bounds
/// add up to less than 0.
pub fn a_ring_below_zero_clashes()
    ensures { RingClashes }
{}

/// The theorem: certificates that are checked one after another, from the start, are as many steps of a search.
pub fn certified_steps_are_steps<Cost>()
    ensures { CertificatesStep Cost }
{}

/// The theorem: a search in which every enumerated selection is settled has ended.
pub fn settled_enumeration_ends_a_search()
    ensures { EnumerationEnds }
{}

/// The theorem: minutes that meet a selection are the smallest where chains of limits lead back to event 0.
pub fn chains_show_the_smallest_minutes()
    ensures { ChainsSmallest }
{}
