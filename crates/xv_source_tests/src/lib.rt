// Tests of the source's half. They stand apart so that the half is not proved again for them.
#![tactic(auto)]

#[cfg(test)]
mod source_guest_tests;
#[cfg(test)]
mod source_message_tests;
#[cfg(test)]
mod source_tests;
