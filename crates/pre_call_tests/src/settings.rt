// The tick of every class, and the edges of the settings and of a capacity.
use orders::capacity::check_capacity;
use orders::refusal::Refusal;
use orders::settings::Settings;
use std::test::*;

const TICKS: [u32; 18] = [
    1, 2, 5, 10, 20, 50, 100, 200, 500, 1_000, 2_000, 5_000, 10_000, 20_000, 50_000, 100_000,
    200_000, 500_000,
];

#[test]
fn tick_of_every_class(rt: HostRuntime) -> Result<(), Fail> {
    for (class, tick) in (0..).zip(TICKS) {
        assert_eq!(rt; Settings::new(1, class)?.tick(), tick);
    }
    Ok(())
}

#[test]
fn settings_in_range(rt: HostRuntime) -> Result<(), Fail> {
    let cases: [(u16, u32); 5] = [(1, 0), (1, 17), (1_000, 0), (1_000, 17), (7, 3)];
    for (lot, class) in cases {
        assert!(rt; Settings::new(lot, class).is_ok());
    }
    Ok(())
}

#[test]
fn settings_out_of_range(rt: HostRuntime) -> Result<(), Fail> {
    let cases: [(u16, u32); 7] = [
        (0, 0),
        (1_001, 0),
        (65_535, 0),
        (1, 18),
        (1, 255),
        (1, 256),
        (0, 4_294_967_295),
    ];
    for (lot, class) in cases {
        assert_eq!(rt; Settings::new(lot, class).err(), Some(Refusal::Settings));
    }
    Ok(())
}

#[test]
fn capacities(rt: HostRuntime) -> Result<(), Fail> {
    for length in [1, 2, 64, 255, 256] {
        assert!(rt; check_capacity(length).is_ok());
    }
    for length in [0, 257, 1_000, usize::MAX] {
        assert_eq!(rt; check_capacity(length).err(), Some(Refusal::Capacity));
    }
    Ok(())
}

// The numbers stand in docs/REFUSALS.md.
#[test]
fn refusal_numbers(rt: HostRuntime) -> Result<(), Fail> {
    let cases = [
        (Refusal::Identity, 1),
        (Refusal::Quantity, 2),
        (Refusal::Price, 3),
        (Refusal::NumberHeld, 4),
        (Refusal::NumberUnknown, 5),
        (Refusal::OtherParticipant, 6),
        (Refusal::SideOrKind, 7),
        (Refusal::BookFull, 8),
        (Refusal::WrongPhase, 13),
        (Refusal::Settings, 14),
        (Refusal::Capacity, 15),
        (Refusal::Text, 18),
    ];
    for (refusal, number) in cases {
        assert_eq!(rt; refusal.number(), number);
    }
    Ok(())
}
