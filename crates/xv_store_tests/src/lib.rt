// Tests of what the halves are made of: sets, lists, slots, regions and wires. They stand apart so that those crates are not proved again for them.
#![tactic(auto)]

#[cfg(test)]
mod dirty_tests;
#[cfg(test)]
mod outbox_tests;
#[cfg(test)]
mod region_tests;
#[cfg(test)]
mod slots_tests;
#[cfg(test)]
mod wire_tests;
