//! The node that has the guest first.

ghost use Rattle.std.specs.Prelude.{◌≡◌, true, false, not, Some};
ghost use Rattle.xv_handover.specs.declared.message.Kind.TheVariants.{Ready};
ghost use Rattle.xv_handover.specs.Tables.{keeping, write_a, offer_a, withdraw_a, resend_a, receive_a};
ghost use Rattle.xv_handover.specs.Answers.{Answers};

use crate::keeper::Keeper;
use crate::kept::KeptA;
use crate::message::{Kind, Message, Reply, word};
use std::marker::Model;

/// Node A, over its keeper. It owns the guest until it is gone.
#[derive(Drop)]
pub struct NodeA<R: Keeper<KeptA>> {
    keeper: R,
    offered: bool,
}

impl<R: Keeper<KeptA>> Model for NodeA<R> {
    ghost use Rattle.xv_handover.specs.Tables.{SideA};
    ghost use Rattle.xv_handover.specs.Answers.{Seen};

    ghost Value = { Seen SideA };

    ghost view = { λ a. record { side = record { kept = R.held a.keeper; offered = a.offered }; calls = R.calls a.keeper; faults = R.faults a.keeper; steady = R.steady a.keeper } };
}

impl<R: Keeper<KeptA>> NodeA<R> {
    /// Begins from what is kept. That an offer was made is lost.
    pub fn wake(keeper: R) -> NodeA<R>
        ensures { result ≡ record { side = record { kept = R.held keeper; offered = false }; calls = R.calls keeper; faults = R.faults keeper; steady = R.steady keeper } }
    {
        NodeA {
            keeper,
            offered: false,
        }
    }

    /// What is kept.
    pub fn kept(&self) -> KeptA
        ensures { result ≡ self.now.side.kept }
    {
        self.keeper.kept()
    }

    /// Whether an offer stands.
    pub fn offered(&self) -> bool
        ensures { result ≡ self.now.side.offered }
    {
        self.offered
    }

    /// Whether this node has the guest.
    pub fn owns(&self) -> bool
        ensures { result ≡ not self.now.side.kept.gone }
    {
        !self.kept().gone
    }

    /// Gives the keeper back.
    pub fn into_keeper(self) -> R
        ensures held { R.held result ≡ self.side.kept }
        ensures calls { R.calls result ≡ self.calls }
        ensures faults { R.faults result ≡ self.faults }
        ensures steady { R.steady result ≡ self.steady }
    {
        self.keeper
    }

    /// A write of the guest, which raises the number.
    pub fn write(&mut self) -> Reply
        ensures { Answers (write_a self.old.side) result self.old self.new }
    {
        let kept = self.kept();
        if self.offered() || kept.gone || kept.number == u32::MAX {
            return Reply::NotNow;
        }
        let number = kept.number + 1;
        self.keep(KeptA { number, ..kept }, false, None)
    }

    /// Offers the guest in a new attempt.
    pub fn offer(&mut self) -> Reply
        ensures { Answers (offer_a self.old.side) result self.old self.new }
    {
        let kept = self.kept();
        if self.offered() || kept.gone || kept.attempt == u32::MAX {
            return Reply::NotNow;
        }
        let attempt = kept.attempt + 1;
        let prepare = word(Kind::Prepare, attempt, kept.number);
        self.keep(KeptA { attempt, ..kept }, true, Some(prepare))
    }

    /// Takes the offer back.
    pub fn withdraw(&mut self) -> Reply
        ensures { Answers (withdraw_a self.old.side) result self.old self.new }
    {
        if !self.offered() {
            return Reply::NotNow;
        }
        let abort = word(Kind::Abort, self.kept().attempt, 0);
        self.offered = false;
        Reply::Done(Some(abort))
    }

    /// Sends the last word again.
    pub fn resend(&mut self) -> Reply
        ensures { Answers (resend_a self.old.side) result self.old self.new }
    {
        let kept = self.kept();
        if self.offered() {
            Reply::Done(Some(word(Kind::Prepare, kept.attempt, kept.number)))
        } else if kept.gone {
            Reply::Done(Some(word(Kind::Commit, kept.attempt, kept.number)))
        } else {
            Reply::NotNow
        }
    }

    /// Takes a `Ready`. Where it answers the offer that stands, the guest goes.
    pub fn receive(&mut self, ready: Message) -> Reply
        requires { ready.kind ≡ Ready }
        ensures { Answers (receive_a self.old.side ready) result self.old self.new }
    {
        let kept = self.kept();
        if ready.attempt != kept.attempt || ready.number != kept.number {
            return Reply::Done(None);
        }
        let commit = word(Kind::Commit, kept.attempt, kept.number);
        if self.offered() {
            self.keep(KeptA { gone: true, ..kept }, false, Some(commit))
        } else if kept.gone {
            Reply::Done(Some(commit))
        } else {
            Reply::Done(None)
        }
    }

    /// Keeps a value, and only then goes on and sends the message.
    fn keep(&mut self, kept: KeptA, offered: bool, sends: Option<Message>) -> Reply
        ensures { Answers (Some (keeping (record { kept = kept; offered = offered }) sends)) result self.old self.new }
    {
        match self.keeper.keep(kept) {
            Ok(()) => {
                self.offered = offered;
                Reply::Done(sends)
            }
            Err(_) => Reply::Failed,
        }
    }
}
