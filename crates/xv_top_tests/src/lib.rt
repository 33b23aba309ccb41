// Tests of the program as a function of its words, its input and its output, and of lines played on a migration over wires
// that give any piece. They stand apart so that the program is not proved again for them.
#![tactic(auto)]

#[cfg(test)]
mod drive_tests;
#[cfg(test)]
mod fault_tests;
#[cfg(test)]
mod handover_tests;
#[cfg(test)]
mod replay_tests;
#[cfg(test)]
mod tests;
