// bagplan: reads a plan's bytes from standard input and prints what the plan says, or why it is refused.
#![tactic(auto)]

mod report;

use report::{Report, report_on};
use std::io::Read;
use std::process::ExitCode;

// As many bytes are read; later ones are not.
const MOST: u64 = 16_384;

// Prints the report on the plan, and hands it back.
fn run(rt: &HostRuntime) -> anyhow::Result<Report> {
    let mut bytes = Vec::new(rt.alloc());
    rt.stdin().take(MOST).read_to_end(&mut bytes)?;
    let report = report_on(rt.alloc(), bytes.as_slice())?;
    print!(rt; "{report}")?;
    Ok(report)
}

// A refusal is printed on standard output, and ends the program with status 1.
fn main(rt: HostRuntime) -> anyhow::Result<ExitCode> {
    if run(&rt)?.is_accepted() {
        Ok(ExitCode::SUCCESS)
    } else {
        Ok(ExitCode::FAILURE)
    }
}
