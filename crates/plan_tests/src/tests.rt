use digits::read_word;
use fault::{Error, Kind};
use lines::{Line, fill_lines, line_count};
use plan::Plan;
use queue::{Ready, Running};
use schedule::Start;
use std::alloc::Global;
use std::test::Fail;

// The bytes of the sample bag: two cores, three segments; task 2 of segment 0 follows task 0.
fn sample(heap: Global, deadline: u8) -> anyhow::Result<Vec<u8>> {
    let digits = format!(in heap;
        "02{deadline:02x}03030004000003000005010002010203000600000200000200000100030000"
    )?;
    read_word(heap, digits.as_str())
}

// Reads with as many cells as the sample bag needs.
fn read(heap: Global, place: &mut Plan, bytes: &[u8]) -> Result<(), Error> {
    let mut ready = [Ready::default(); 3];
    let mut running = [Running::default(); 2];
    place.read(heap, bytes, &mut ready, &mut running)
}

// A place that these bytes were read into.
fn holding(heap: Global, bytes: &[u8]) -> Result<Plan, Error> {
    let mut place = Plan::new(heap)?;
    read(heap, &mut place, bytes)?;
    Ok(place)
}

fn line(segment: usize, task: u32, order: usize, start: u64, end: u64) -> Line {
    Line {
        segment,
        task,
        order,
        start,
        end,
    }
}

#[test]
fn a_fresh_place_holds_the_fresh_plan(rt: HostRuntime) -> Result<(), Fail> {
    let place = Plan::new(rt.alloc())?;
    let mut run = [7; 9];
    assert_eq!(rt; place.write(&mut run)?, 8);
    assert_eq!(rt; run, [1, 0, 1, 1, 0, 0, 0, 0, 7]);
    let mut records = [line(9, 9, 9, 9, 9); 1];
    assert_eq!(rt; line_count(&place), 1);
    assert_eq!(rt; fill_lines(&place, &mut records)?, 1);
    assert_eq!(rt; records, [line(0, 0, 0, 0, 0)]);
    Ok(())
}

#[test]
fn the_sample_bag_fills_the_first_records(rt: HostRuntime) -> Result<(), Fail> {
    let heap = rt.alloc();
    let place = holding(heap, sample(heap, 17)?.as_slice())?;
    let mut records = [line(9, 9, 9, 9, 9); 8];
    assert_eq!(rt; fill_lines(&place, &mut records)?, 7);
    assert_eq!(rt;
        records,
        [
            line(0, 0, 0, 2, 6),
            line(0, 1, 1, 2, 5),
            line(0, 2, 2, 6, 11),
            line(1, 0, 0, 11, 17),
            line(1, 1, 1, 11, 13),
            line(1, 2, 2, 13, 15),
            line(2, 0, 0, 14, 17),
            line(9, 9, 9, 9, 9),
        ]
    );
    Ok(())
}

#[test]
fn too_short_a_run_of_records_stays_as_it_was(rt: HostRuntime) -> Result<(), Fail> {
    let heap = rt.alloc();
    let place = holding(heap, sample(heap, 17)?.as_slice())?;
    let mut records = [line(9, 9, 9, 9, 9); 6];
    assert_eq!(rt; fill_lines(&place, &mut records), Err(Kind::TooSmall.at(7)));
    assert_eq!(rt; records, [line(9, 9, 9, 9, 9); 6]);
    Ok(())
}

#[test]
fn the_tables_of_the_sample_bag(rt: HostRuntime) -> Result<(), Fail> {
    let heap = rt.alloc();
    let place = holding(heap, sample(heap, 17)?.as_slice())?;
    assert!(rt; place.remaining.as_slice() == [15, 6, 3].as_slice());
    assert_eq!(rt; place.shift(0), 2);
    assert_eq!(rt; place.shift(1), 11);
    assert_eq!(rt; place.shift(2), 14);
    let first = place.timelines.first().ok_or("no segment")?;
    assert_eq!(rt; first.length, 9);
    let late = first.starts.last().ok_or("no start")?;
    assert_eq!(rt;
        *late,
        Start {
            task: 2,
            at: 4,
            core: 0,
        }
    );
    Ok(())
}

// The plan that is accepted just in time stays when another is refused.
#[test]
fn the_needed_length_is_within_the_deadline(rt: HostRuntime) -> Result<(), Fail> {
    let heap = rt.alloc();
    let just = sample(heap, 15)?;
    let mut place = holding(heap, just.as_slice())?;
    assert_eq!(rt;
        read(heap, &mut place, sample(heap, 14)?.as_slice()),
        Err(Error::Refused(Kind::OverDeadline.at(15)))
    );
    let mut run = [7; 33];
    assert_eq!(rt; place.write(&mut run)?, 33);
    assert!(rt; run[0..] == just.as_slice()[0..]);
    assert_eq!(rt; place.shift(0), 0);
    Ok(())
}

// Two tasks on one core: the first is called scan, the second has no name.
#[test]
fn names_and_their_stand_in(rt: HostRuntime) -> Result<(), Fail> {
    let heap = rt.alloc();
    let place = holding(
        heap,
        read_word(heap, "01000102047363616e000000000000")?.as_slice(),
    )?;
    assert!(rt; place.name(0, 0, b"-") == Some(b"scan"));
    assert!(rt; place.name(0, 1, b"-") == Some(b"-"));
    assert!(rt; place.name(0, 1, b"") == Some(b""));
    assert!(rt; place.name(0, 2, b"-").is_none());
    assert!(rt; place.name(1, 0, b"-").is_none());
    Ok(())
}
