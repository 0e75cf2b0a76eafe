// Examples of ladders, worked out by hand.
#![tactic(auto)]

#[cfg(test)]
mod tests;
