// Examples of the byte layer that a list of bytes alone does not show: what a writer leaves in its run, and how
// faults print.
#![tactic(auto)]

#[cfg(test)]
mod tests;
