//! The law of the report as JSON, as the contract of a function that does nothing.

ghost use Rattle.std.specs.Prelude.{◌≡◌, Option};
ghost use Rattle.xv_base.specs.declared.event.Totals.{Totals as Numbers};
ghost use Rattle.xv_report.specs.Json.{report_json, spelled_json};
ghost use Rattle.xv_report.specs.Workers.{Tally};

/// The report as JSON, spelled out byte by byte.
pub fn json_is_spelled_out()
    ensures { (t : Numbers) (counts : Option Tally) → report_json t counts ≡ spelled_json t counts }
{}
