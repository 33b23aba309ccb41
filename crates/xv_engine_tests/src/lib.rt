// Tests of the streams, the hold and the destination's half. They stand apart so that none of those crates is proved again for
// them.
#![tactic(auto)]

#[cfg(test)]
mod dest_tests;
#[cfg(test)]
mod hold_tests;
#[cfg(test)]
mod streams_tests;
