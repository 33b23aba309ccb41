// Tests of the driver: whole runs over devices and wires in memory. They stand apart so that the driver is not proved again
// for them.
#![tactic(auto)]

#[cfg(test)]
mod run_tests;
