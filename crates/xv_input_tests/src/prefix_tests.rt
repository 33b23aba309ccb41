//! An input that ends early is refused as such wherever it is cut: on the line in which or before which it ends.

use crate::calling::{WHOLE, call, is_refused};
use crate::samples::{SAMPLES, Sample};
use std::alloc::Global;

/// The first number of bytes whose front of the input is refused otherwise than as one that ends early; none where there is none.
fn wrong_cut(alloc: Global, sample: &Sample) -> Option<usize> {
    let mut line = 1u32;
    for (cut, &byte) in sample.input.iter().enumerate() {
        let front = sample.input.get(..cut).unwrap_or(sample.input);
        if !is_refused(alloc, sample.words, front, line, "unended") {
            return Some(cut);
        }
        if byte == b'\n' {
            line = line.saturating_add(1);
        }
    }
    None
}

#[test]
fn refuses_each_front(rt: HostRuntime) {
    for sample in SAMPLES {
        let whole = call(rt.alloc(), sample.words, sample.input, WHOLE);
        let cut = wrong_cut(rt.alloc(), sample);
        let name = sample.name;
        assert!(rt; whole.is(sample.status, sample.output), "{name}");
        assert_eq!(rt; cut, None, "{name}");
    }
}
