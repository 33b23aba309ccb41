// Tests of the crates that texts come and go by: lines and their fields, scripts and the lines of their answers, sources and
// sinks. They stand apart so that none of those crates is proved again for them.
#![tactic(auto)]

#[cfg(test)]
mod io_tests;
#[cfg(test)]
mod script_tests;
#[cfg(test)]
mod text_tests;
