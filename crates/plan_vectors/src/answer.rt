use crate::shown::shown;
use anyhow::anyhow;
use cases::Case;
use digits::read_word;
use fault::{Error, Fault};
use plan::Plan;
use queue::{Ready, Running};
use std::alloc::{AllocError, Global};

// The plan of a fresh place: its bytes, and what is shown of it.
const FRESH: [u8; 8] = [1, 0, 1, 1, 0, 0, 0, 0];

const FRESH_SHOWN: &str = "needed 0 lengths 0 remaining 0 shifts 0 starts 0:0:0 lines 0:0:0:0:0";

// A case of the plan place.
pub struct Place;

impl Case for Place {
    // What a case answers. A word that is missing reads as an empty one; those after the last are not looked at.
    fn answer(heap: Global, line: &str) -> anyhow::Result<String> {
        let mut words = line.split(' ');
        let [Some("place"), ready, running, hex] = [
            words.next(),
            words.next(),
            words.next(),
            words.next(),
        ] else {
            return Err(anyhow!("not a place"));
        };
        let ready = ready.unwrap_or("").parse::<usize>()?;
        let running = running.unwrap_or("").parse::<usize>()?;
        let bytes = read_word(heap, hex.unwrap_or(""))?;
        answer_place(heap, ready, running, bytes.as_slice())
    }
}

fn answer_place(
    heap: Global,
    ready: usize,
    running: usize,
    bytes: &[u8],
) -> anyhow::Result<String> {
    let mut ready = vec![in heap; Ready::default(); ready]?;
    let mut running = vec![in heap; Running::default(); running]?;
    let mut place = Plan::new(heap).map_err(|_| anyhow!("no fresh place"))?;
    match place.read(heap, bytes, ready.as_mut_slice(), running.as_mut_slice()) {
        Ok(()) => answer_accepted(heap, bytes, &place),
        Err(Error::Refused(fault)) => answer_refused(heap, fault, &place),
        Err(Error::OutOfMemory) => Err(anyhow!("out of memory")),
    }
}

// An accepted plan has to be written as it was read.
fn answer_accepted(heap: Global, bytes: &[u8], place: &Plan) -> anyhow::Result<String> {
    if !writes(heap, place, bytes)? {
        return Ok(String::from_str(heap, "written otherwise")?);
    }
    let text = shown(heap, place)?;
    Ok(format!(in heap; "accepted {text}")?)
}

// A refused reading has to leave the place as it was.
fn answer_refused(heap: Global, fault: Fault, place: &Plan) -> anyhow::Result<String> {
    let text = shown(heap, place)?;
    if !writes(heap, place, &FRESH)? || text.as_str() != FRESH_SHOWN {
        return Ok(format!(in heap; "{fault} changed")?);
    }
    Ok(format!(in heap; "{fault}")?)
}

// Whether the plan in the place is written in these bytes and no others.
fn writes(heap: Global, place: &Plan, bytes: &[u8]) -> Result<bool, AllocError> {
    let mut run = vec![in heap; 0u8; bytes.len()]?;
    let written = place.write(run.as_mut_slice());
    Ok(written == Ok(bytes.len()) && run.as_slice() == bytes)
}
