//! A law of the messages that are not sent.

ghost use Rattle.std.specs.Prelude.{◌≡◌, length};

use crate::source::SourceHalf;
use xv_device::UnitDevice;

impl<S: UnitDevice> SourceHalf<S> {
    /// Each message that is not sent has its content. This does nothing.
    pub fn pair_contents(&self)
        ensures { length self.now.contents ≡ length self.now.messages }
    {
        let _ = &self.outbox;
    }
}
