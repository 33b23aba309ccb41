// Tests on random texts: jobs, scripts and scripts of a handover that follow from a number, some of them with a few
// faults, and what holds of every text, whether it is read or refused. They stand apart so that the readers are not
// proved again for them.
#![tactic(auto)]

#[cfg(test)]
mod dice;
#[cfg(test)]
mod jobs;
#[cfg(test)]
mod mutations;
#[cfg(test)]
mod random_tests;
#[cfg(test)]
mod reading;
#[cfg(test)]
mod scripts;
#[cfg(test)]
mod tally;
#[cfg(test)]
mod writing;
