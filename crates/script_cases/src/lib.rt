// Scripts with faults, each with the line and the words that are to be told of it.
#![tactic(auto)]

#[cfg(test)]
mod tests;
