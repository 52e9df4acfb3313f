// The worked cases of forwarding, as tests through the public methods of a bridge.
#![tactic(auto)]

#[cfg(test)]
mod tests;
