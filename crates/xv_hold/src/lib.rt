// The hold: the messages that were delivered and not written yet, in order of arrival, each with its content.
//
// Contracts see a `Hold` as its layout, its limit, the list of its messages and, for each unit, the version that was
// written last and its `at`. The layer above may rely on this: `ready` names the first message, in order of arrival,
// whose version is its unit's next one, as a scan of the list would find it; a message is taken out by `applied`
// alone; and no other is lost, whatever came before it. All memory is taken by `new`.
#![tactic(auto)]

mod hold;
mod ready;

pub use hold::Hold;
pub use xv_base::UnitHead;
