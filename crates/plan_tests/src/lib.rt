// Examples of the plan place, its names and its line records, worked out by hand.
#![tactic(auto)]

#[cfg(test)]
mod tests;
