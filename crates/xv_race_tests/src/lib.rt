// Tests of the shared state by two threads that have no order between them and race for the lock. What they do in which order is
// theirs, so each journal that they leave is played again by one thread.
#![tactic(auto)]

#[cfg(test)]
mod made;
#[cfg(test)]
mod race_tests;
#[cfg(test)]
mod racing;
#[cfg(test)]
mod replay;
#[cfg(test)]
mod tally;
