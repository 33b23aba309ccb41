// The report of a migration, as lines or as JSON, and its image, written to a sink.
//
// Contracts see the workers' counts as a list, and what is written as a stated function of the totals, of the counts and
// of the units' contents. The layer above may rely on this: a text is written whole or a write failed, and then a front
// of it has been taken. The line of JSON is what `serde_json` prints for the value of the report, and is also spelled out;
// where there is no memory for it nothing is taken.
#![tactic(auto)]

mod as_json;
mod counts;
mod image;
mod laws;
mod report;

pub use as_json::{JsonFault, report_value, write_report_json};
pub use counts::{Count, Counts, Job1};
pub use image::write_image;
pub use laws::json_is_spelled_out;
pub use report::write_report;
