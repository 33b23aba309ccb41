// Tests of the program over an input that ends early or is no text, and over an input and an output that fail: each front of an
// input, each call of both edges and each number of bytes in turn. They stand apart so that the program
// is not proved again for them.
#![tactic(auto)]

#[cfg(test)]
mod calling;
#[cfg(test)]
mod edge_tests;
#[cfg(test)]
mod odd_tests;
#[cfg(test)]
mod prefix_tests;
#[cfg(test)]
mod reading_tests;
#[cfg(test)]
mod samples;
