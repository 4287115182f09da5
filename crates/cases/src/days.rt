//! Days and timetables at the edges of what is taken.
use problem::{Day, Flaw, Refusal, Timetable, check_timetable};

#[test]
fn a_day_has_1_to_32_events_and_a_horizon_up_to_10080(rt: HostRuntime) {
    assert_eq!(rt; Day::new(1, 0).err(), None);
    assert_eq!(rt; Day::new(3, 60).err(), None);
    assert_eq!(rt; Day::new(32, 10_080).err(), None);
    assert_eq!(rt; Day::new(0, 60).err(), Some(Refusal::EventCount));
    assert_eq!(rt; Day::new(33, 60).err(), Some(Refusal::EventCount));
    assert_eq!(rt; Day::new(3, 10_081).err(), Some(Refusal::HorizonRange));
    assert_eq!(rt; Day::new(33, 10_081).err(), Some(Refusal::EventCount));
}

#[test]
fn minutes_are_a_timetable_from_0_at_the_start_to_the_horizon(rt: HostRuntime) {
    let day = Day::new(3, 60).unwrap();
    assert_eq!(rt; check_timetable(day, &[0, 0, 0]), Ok(()));
    assert_eq!(rt; check_timetable(day, &[0, 60, 30]), Ok(()));
    assert_eq!(rt; check_timetable(day, &[0, 60]), Err(Flaw::Count));
    assert_eq!(rt; check_timetable(day, &[5, 61, 0, 0]), Err(Flaw::Count));
    assert_eq!(rt; check_timetable(day, &[1, 61, 0]), Err(Flaw::Start));
    assert_eq!(rt;
        check_timetable(day, &[0, 61, 99]),
        Err(Flaw::Late { event: 1 })
    );
    assert_eq!(rt;
        check_timetable(day, &[0, 60, 61]),
        Err(Flaw::Late { event: 2 })
    );
}

/// The minute that the minutes give an event, where they are a timetable of a day of three events and 60 minutes.
fn minute(minutes: &[u32], event: usize) -> Result<u32, Flaw> {
    Ok(Timetable::new(Day::new(3, 60).unwrap(), minutes)?.minute(event))
}

#[test]
fn a_timetable_gives_each_event_its_minute(rt: HostRuntime) {
    assert_eq!(rt; minute(&[0, 60, 30], 1), Ok(60));
    assert_eq!(rt; minute(&[0, 60, 30], 2), Ok(30));
    assert_eq!(rt; minute(&[0, 60, 30], 3), Ok(0));
    assert_eq!(rt; minute(&[0, 61, 30], 2), Err(Flaw::Late { event: 1 }));
}
