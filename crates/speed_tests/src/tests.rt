use fault::{Fault, Kind};
use speed::{Even, Greedy, Ladder, Listed, Policy, TwoStep, floor_for, full_speed, time_at};
use std::test::Fail;

const STEPS: [u32; 4] = [400, 600, 800, 1000];

fn bad(place: u64) -> Fault {
    Kind::LadderForm.at(place)
}

#[test]
fn work_takes_its_time(rt: HostRuntime) -> Result<(), Fail> {
    let mut ladder = Listed::new();
    ladder.set(&STEPS)?;
    assert_eq!(rt; time_at(&ladder, 5, 1), Some(9));
    assert_eq!(rt; time_at(&ladder, 5, 3), Some(5));
    assert_eq!(rt; time_at(&ladder, 5, 4), None);
    assert_eq!(rt; time_at(&ladder, 0, 0), Some(0));
    assert_eq!(rt; floor_for(&ladder, 5, 9), Some(1));
    assert_eq!(rt; floor_for(&ladder, 5, 8), Some(2));
    assert_eq!(rt; floor_for(&ladder, 5, 4), None);
    Ok(())
}

#[test]
fn the_largest_work_at_the_widest_ladder(rt: HostRuntime) -> Result<(), Fail> {
    let ladder = Even::new(1, 9999, 2)?;
    assert_eq!(rt; full_speed(&ladder), 10000);
    assert_eq!(rt;
        time_at(&ladder, 4_294_967_295, 0),
        Some(42_949_672_950_000)
    );
    assert_eq!(rt; time_at(&ladder, 4_294_967_295, 1), Some(4_294_967_295));
    Ok(())
}

#[test]
fn a_refused_setting_leaves_the_ladder(rt: HostRuntime) -> Result<(), Fail> {
    let mut ladder = Listed::new();
    assert_eq!(rt; ladder.set(&[]), Err(bad(0)));
    assert_eq!(rt; ladder.count(), 1);
    assert_eq!(rt; ladder.speed(0), 1);
    ladder.set(&STEPS)?;
    assert_eq!(rt; ladder.set(&[100, 200, 200]), Err(bad(3)));
    assert_eq!(rt; ladder.count(), 4);
    assert_eq!(rt; ladder.speed(0), 400);
    assert_eq!(rt; ladder.speed(3), 1000);
    assert_eq!(rt; ladder.speed(4), 0);
    Ok(())
}

#[test]
fn sixteen_are_listed(rt: HostRuntime) -> Result<(), Fail> {
    let speeds = [1, 2, 3, 4, 5, 6, 7, 8, 9, 10, 11, 12, 13, 14, 15, 16, 17];
    let mut ladder = Listed::new();
    ladder.set(&speeds[0..16])?;
    assert_eq!(rt; ladder.count(), 16);
    assert_eq!(rt; ladder.set(&speeds), Err(bad(0)));
    Ok(())
}

#[test]
fn sixty_four_are_even(rt: HostRuntime) -> Result<(), Fail> {
    let ladder = Even::new(46, 158, 64)?;
    assert_eq!(rt; ladder.count(), 64);
    assert_eq!(rt; ladder.speed(63), 10000);
    assert_eq!(rt; Even::new(1, 1, 65).err(), Some(bad(0)));
    Ok(())
}

#[test]
fn even_steps_rise_and_never_wrap(rt: HostRuntime) {
    assert_eq!(rt; Even::new(5, 0, 2).err(), Some(bad(2)));
    assert_eq!(rt;
        Even::new(4_294_967_295, 4_294_967_295, 64).err(),
        Some(bad(1))
    );
    assert_eq!(rt; Even::new(1, 2_147_483_649, 3).err(), Some(bad(2)));
}

#[test]
fn each_kind_names_its_most_levels(rt: HostRuntime) {
    assert_eq!(rt; Listed::MOST, 16);
    assert_eq!(rt; Listed::most_levels(), 16);
    assert_eq!(rt; Even::MOST, 64);
    assert_eq!(rt; Even::most_levels(), 64);
}

#[test]
fn policies_keep_to_their_range(rt: HostRuntime) {
    assert_eq!(rt; Greedy.level(0, 9, 1, 2), 1);
    assert_eq!(rt; Greedy.level(0, 9, 3, 2), 2);
    let policy = TwoStep {
        switch: 10,
        first: 3,
        second: 0,
    };
    assert_eq!(rt; policy.level(0, 9, 1, 2), 2);
    assert_eq!(rt; policy.level(0, 10, 1, 2), 1);
    assert_eq!(rt; policy.level(0, 9, 1, 5), 3);
    assert_eq!(rt; policy.level(0, 9, 4, 2), 2);
}
