// Tests of plain data and of frames. They stand apart so that those crates are not proved again for them.
#![tactic(auto)]

#[cfg(test)]
mod base_tests;
#[cfg(test)]
mod frame_tests;
