// Tests of devices and of the unmigrated guest. They stand apart so that those crates are not proved again for them.
#![tactic(auto)]

#[cfg(test)]
mod device_tests;
#[cfg(test)]
mod guest_tests;
