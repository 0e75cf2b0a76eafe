use anyhow::{Context, anyhow};
use cases::Case;
use digits::{Letters, word_bytes};
use fault::Error;
use graph::Graph;
use number::read_number;
use reader::read_graph;
use std::alloc::Global;
use writer::{graph_size, write_graph};

// A case of the byte layer.
pub struct Bytes;

impl Case for Bytes {
    // What a case answers. A word that is missing reads as an empty one; those after the last are not looked at.
    fn answer(heap: Global, line: &str) -> anyhow::Result<String> {
        let mut words = line.split(' ');
        match [words.next(), words.next(), words.next()] {
            [Some("number"), at, hex] => {
                let at = at.unwrap_or("").parse::<usize>()?;
                let bytes = read_bytes(heap, hex.unwrap_or(""))?;
                answer_number(heap, bytes.as_slice(), at)
            }
            [Some("plan"), hex, _] => {
                let bytes = read_bytes(heap, hex.unwrap_or(""))?;
                answer_plan(heap, bytes.as_slice())
            }
            _ => Err(anyhow!("neither a number nor a plan")),
        }
    }
}

fn read_bytes(heap: Global, text: &str) -> anyhow::Result<Vec<u8>> {
    word_bytes(heap, Letters::Lower, text)?.context("not hexadecimal")
}

fn answer_number(heap: Global, bytes: &[u8], at: usize) -> anyhow::Result<String> {
    let rest = bytes.get(at..).context("a place past the bytes")?;
    match read_number(bytes.len(), rest) {
        Ok((value, after)) => {
            let used = rest.len().saturating_sub(after.len());
            Ok(format!(in heap; "value {value} used {used}")?)
        }
        Err(fault) => Ok(format!(in heap; "{fault}")?),
    }
}

fn answer_plan(heap: Global, bytes: &[u8]) -> anyhow::Result<String> {
    match read_graph(heap, bytes) {
        Ok(graph) => answer_written(heap, bytes, &graph),
        Err(Error::Refused(fault)) => Ok(format!(in heap; "{fault}")?),
        Err(Error::OutOfMemory) => Err(anyhow!("out of memory")),
    }
}

// An accepted plan has to be written as it was read.
fn answer_written(heap: Global, bytes: &[u8], graph: &Graph) -> anyhow::Result<String> {
    let mut run = vec![in heap; 0u8; graph_size(graph)]?;
    match write_graph(graph, run.as_mut_slice()) {
        Ok(size) if run.as_slice() == bytes => Ok(format!(in heap; "accepted {size}")?),
        Ok(_) => Ok(String::from_str(heap, "written otherwise")?),
        Err(fault) => Ok(format!(in heap; "{fault}")?),
    }
}
