use fault::{Error, Kind};
use number::write_number;
use reader::read_graph;
use std::test::Fail;
use writer::{graph_size, write_graph};

// Two cores, deadline 17, three segments; task 2 of segment 0 follows task 0.
const SAMPLE: [u8; 33] = [
    0x02, 0x11, 0x03, 0x03, 0x00, 0x04, 0x00, 0x00, 0x03, 0x00, 0x00, 0x05, 0x01, 0x00, 0x02, 0x01,
    0x02, 0x03, 0x00, 0x06, 0x00, 0x00, 0x02, 0x00, 0x00, 0x02, 0x00, 0x00, 0x01, 0x00, 0x03, 0x00,
    0x00,
];

#[test]
fn a_number_fills_the_first_bytes(rt: HostRuntime) -> Result<(), Fail> {
    let mut run = [9; 4];
    assert_eq!(rt; write_number(300, &mut run)?, 2);
    assert_eq!(rt; run, [0xac, 0x02, 9, 9]);
    assert_eq!(rt;
        write_number(4_294_967_295, &mut run),
        Err(Kind::TooSmall.at(5))
    );
    assert_eq!(rt; run, [0xac, 0x02, 9, 9]);
    Ok(())
}

#[test]
fn a_graph_fills_the_first_bytes(rt: HostRuntime) -> Result<(), Fail> {
    let graph = read_graph(rt.alloc(), &SAMPLE)?;
    let mut run = [7; 35];
    assert_eq!(rt; graph_size(&graph), 33);
    assert_eq!(rt; write_graph(&graph, &mut run)?, 33);
    assert!(rt; run[0..33] == SAMPLE[0..]);
    assert_eq!(rt; run[33], 7);
    assert_eq!(rt; run[34], 7);
    Ok(())
}

#[test]
fn too_short_a_run_stays_as_it_was(rt: HostRuntime) -> Result<(), Fail> {
    let graph = read_graph(rt.alloc(), &SAMPLE)?;
    let mut run = [7; 32];
    assert_eq!(rt; write_graph(&graph, &mut run), Err(Kind::TooSmall.at(33)));
    assert_eq!(rt; run, [7; 32]);
    Ok(())
}

#[test]
fn a_graph_shows_its_parts(rt: HostRuntime) -> Result<(), Fail> {
    let graph = read_graph(rt.alloc(), &SAMPLE)?;
    assert_eq!(rt; graph.cores, 2);
    assert_eq!(rt; graph.deadline, 17);
    let first = graph.segments.first().ok_or("no segment")?;
    assert!(rt; first.exits.as_slice() == [1, 2].as_slice());
    let last = first.tasks.last().ok_or("no task")?;
    assert_eq!(rt; last.worst, 5);
    assert!(rt; last.predecessors.as_slice() == [0].as_slice());
    assert!(rt; last.name.is_empty());
    Ok(())
}

#[test]
fn a_fault_passes_whole_and_prints(rt: HostRuntime) -> Result<(), Fail> {
    let heap = rt.alloc();
    let fault = Kind::BytesEnd.at(3);
    assert_eq!(rt;
        read_graph(heap, &SAMPLE[0..3]).err(),
        Some(Error::Refused(fault))
    );
    assert!(rt; fault.to_string(heap)?.as_str() == "refused 1 bytes 3");
    let late = Kind::AfterPromise.at(7);
    assert!(rt; late.to_string(heap)?.as_str() == "refused 14 frame 7");
    Ok(())
}
