//! What the nodes tell one another, and what a call of a node answers.

ghost use Rattle.std.specs.Prelude.{◌≡◌};
ghost use Rattle.xv_handover.specs.Tables.{message};

/// What a message says.
#[derive(Clone, Copy, Debug, PartialEq, Eq)]
pub enum Kind {
    /// Node A offers the guest with its number.
    Prepare,
    /// Node B has an image of that number, and waits.
    Ready,
    /// Node A has let the guest go.
    Commit,
    /// Node A has withdrawn its offer.
    Abort,
}

/// A message of one attempt. The number is 0 in an `Abort`.
#[derive(Clone, Copy, Debug, PartialEq, Eq)]
pub struct Message {
    pub kind: Kind,
    pub attempt: u32,
    pub number: u32,
}

/// What a call of a node answers.
#[derive(Clone, Copy, Debug, PartialEq, Eq)]
pub enum Reply {
    /// The call was made, and this is the message that it sends, if any.
    Done(Option<Message>),
    /// The call is not for this state of the node, which has not changed.
    NotNow,
    /// The node's value could not be kept, and nothing has changed.
    Failed,
}

pub(crate) fn word(kind: Kind, attempt: u32, number: u32) -> Message
    ensures { result ≡ message kind attempt number }
{
    Message {
        kind,
        attempt,
        number,
    }
}
