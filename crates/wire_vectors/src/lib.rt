// Examples of messages in bytes, made by another program.
#![tactic(auto)]

#[cfg(test)]
mod tests;
