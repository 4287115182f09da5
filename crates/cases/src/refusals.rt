//! The numbers by which refusals are printed.
use problem::Refusal;

#[test]
fn refusals_are_numbered_from_1_to_23(rt: HostRuntime) {
    let numbered = [
        (Refusal::EventCount, 1),
        (Refusal::HorizonRange, 2),
        (Refusal::RulesStand, 3),
        (Refusal::RuleCount, 4),
        (Refusal::DisjunctCount, 5),
        (Refusal::EventPair, 6),
        (Refusal::BoundRange, 7),
        (Refusal::PenaltyRange, 8),
        (Refusal::NoSuchRule, 9),
        (Refusal::PressRange, 10),
        (Refusal::NoPlan, 11),
        (Refusal::NoSuchEvent, 12),
        (Refusal::LimitCount, 13),
        (Refusal::Clash, 14),
        (Refusal::NoLimit, 15),
        (Refusal::TextSize, 16),
        (Refusal::LineKind, 17),
        (Refusal::FieldCount, 18),
        (Refusal::NumberForm, 19),
        (Refusal::TextEnd, 20),
        (Refusal::UnknownWay, 21),
        (Refusal::StepLimit, 22),
        (Refusal::BufferSize, 23),
    ];
    for (refusal, number) in numbered {
        assert_eq!(rt; refusal.number(), number);
    }
}
