// Tests of the command `run` as a function of its words, its input and its output, with its workers in threads. What the
// threads do in which order is theirs: so each journal that they leave is played again, and what every order has to print
// is compared. They stand apart so that the command is not proved again for them.
#![tactic(auto)]

#[cfg(test)]
mod fault_tests;
#[cfg(test)]
mod gate_tests;
#[cfg(test)]
mod large_tests;
#[cfg(test)]
mod order_tests;
#[cfg(test)]
mod planned_tests;
#[cfg(test)]
mod playing;
#[cfg(test)]
mod printed;
#[cfg(test)]
mod refusal_tests;
#[cfg(test)]
mod running;
#[cfg(test)]
mod single_tests;
