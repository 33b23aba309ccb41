// Tests of the migration over devices and wires in memory. They stand apart so that it is not proved again for them.
#![tactic(auto)]

#[cfg(test)]
mod fault_tests;
#[cfg(test)]
mod migration_tests;
