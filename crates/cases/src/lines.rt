use std::alloc::Global;
use std::io::{BufRead, BufReader};

// A kind of case: how a line is answered.
pub trait Case {
    fn answer(heap: Global, line: &str) -> anyhow::Result<String>;
}

// Prints what each line of standard input is answered, and ends at the first error. No contract can say what is read
// and printed, so it promises only that it ends.
pub fn answer_lines<C: Case>(rt: &HostRuntime) -> anyhow::Result<()> {
    let heap = rt.alloc();
    for line in BufReader::new(heap, rt.stdin())?.lines(heap) {
        let line = line?;
        let text = C::answer(heap, line.as_str())?;
        println!(rt; "{text}")?;
    }
    Ok(())
}
