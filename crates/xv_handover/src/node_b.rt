//! The node that is to have the guest.

ghost use Rattle.std.specs.Prelude.{◌≡◌, ◌≢◌, ◌↔◌, IsTrue, true, Some};
ghost use Rattle.xv_handover.specs.declared.message.Kind.TheVariants.{Ready};
ghost use Rattle.xv_handover.specs.declared.kept.Stage.TheVariants.{Owner};
ghost use Rattle.xv_handover.specs.Tables.{keeping, image_b, write_b, resend_b, prepare_b, commit_b, abort_b, receive_b};
ghost use Rattle.xv_handover.specs.Answers.{Answers};

use crate::keeper::Keeper;
use crate::kept::{KeptB, Stage};
use crate::message::{Kind, Message, Reply, word};
use std::marker::Model;

/// Node B, over its keeper. It owns the guest in stage `Owner`.
#[derive(Drop)]
pub struct NodeB<R: Keeper<KeptB>> {
    keeper: R,
}

impl<R: Keeper<KeptB>> Model for NodeB<R> {
    ghost use Rattle.xv_handover.specs.declared.kept.KeptB.{KeptB};
    ghost use Rattle.xv_handover.specs.Answers.{Seen};

    ghost Value = { Seen KeptB };

    ghost view = { λ b. record { side = R.held b.keeper; calls = R.calls b.keeper; faults = R.faults b.keeper; steady = R.steady b.keeper } };
}

impl<R: Keeper<KeptB>> NodeB<R> {
    /// Begins from what is kept.
    pub fn wake(keeper: R) -> NodeB<R>
        ensures { result ≡ record { side = R.held keeper; calls = R.calls keeper; faults = R.faults keeper; steady = R.steady keeper } }
    {
        NodeB { keeper }
    }

    /// What is kept.
    pub fn kept(&self) -> KeptB
        ensures { result ≡ self.now.side }
    {
        self.keeper.kept()
    }

    /// Whether this node has the guest.
    pub fn owns(&self) -> bool
        ensures { IsTrue result ↔ (self.now.side.stage ≡ Owner) }
    {
        match self.kept().stage {
            Stage::Owner => true,
            Stage::Idle | Stage::Prepared => false,
        }
    }

    /// Gives the keeper back.
    pub fn into_keeper(self) -> R
        ensures held { R.held result ≡ self.side }
        ensures calls { R.calls result ≡ self.calls }
        ensures faults { R.faults result ≡ self.faults }
        ensures steady { R.steady result ≡ self.steady }
    {
        self.keeper
    }

    /// An image of this number has come.
    pub fn image(&mut self, number: u32) -> Reply
        ensures { Answers (image_b self.old.side.stage self.old.side number) result self.old self.new }
    {
        let kept = self.kept();
        match kept.stage {
            Stage::Idle => self.keep(KeptB { number, ..kept }, None),
            Stage::Prepared | Stage::Owner => Reply::NotNow,
        }
    }

    /// A write of the guest, which raises the number.
    pub fn write(&mut self) -> Reply
        ensures { Answers (write_b self.old.side.stage self.old.side) result self.old self.new }
    {
        let kept = self.kept();
        match kept.stage {
            Stage::Idle | Stage::Prepared => Reply::NotNow,
            Stage::Owner => {
                if kept.number == u32::MAX {
                    return Reply::NotNow;
                }
                let number = kept.number + 1;
                self.keep(KeptB { number, ..kept }, None)
            }
        }
    }

    /// Says again that it is prepared.
    pub fn resend(&mut self) -> Reply
        ensures { Answers (resend_b self.old.side.stage self.old.side) result self.old self.new }
    {
        let kept = self.kept();
        match kept.stage {
            Stage::Prepared => Reply::Done(Some(word(Kind::Ready, kept.attempt, kept.number))),
            Stage::Idle | Stage::Owner => Reply::NotNow,
        }
    }

    /// Takes a message of node A.
    pub fn receive(&mut self, message: Message) -> Reply
        requires { message.kind ≢ Ready }
        ensures { Answers (receive_b message.kind self.old.side message) result self.old self.new }
    {
        match message.kind {
            Kind::Prepare => self.receive_prepare(message),
            Kind::Commit => self.receive_commit(message),
            Kind::Abort => self.receive_abort(message),
            Kind::Ready => unreachable!(),
        }
    }

    fn receive_prepare(&mut self, prepare: Message) -> Reply
        ensures { Answers (Some (prepare_b self.old.side.stage self.old.side prepare)) result self.old self.new }
    {
        let kept = self.kept();
        let newer = kept.attempt < prepare.attempt;
        let fits = prepare.number == kept.number;
        match kept.stage {
            Stage::Idle | Stage::Prepared if newer && fits => {
                let ready = word(Kind::Ready, prepare.attempt, kept.number);
                self.turn(Stage::Prepared, prepare.attempt, Some(ready))
            }
            Stage::Prepared if newer => self.turn(Stage::Idle, kept.attempt, None),
            Stage::Prepared if fits && prepare.attempt == kept.attempt => self.resend(),
            Stage::Idle | Stage::Prepared | Stage::Owner => Reply::Done(None),
        }
    }

    fn receive_commit(&mut self, commit: Message) -> Reply
        ensures { Answers (Some (commit_b self.old.side.stage self.old.side commit)) result self.old self.new }
    {
        let kept = self.kept();
        match kept.stage {
            Stage::Prepared if commit.attempt == kept.attempt && commit.number == kept.number => {
                self.turn(Stage::Owner, kept.attempt, None)
            }
            Stage::Idle | Stage::Prepared | Stage::Owner => Reply::Done(None),
        }
    }

    fn receive_abort(&mut self, abort: Message) -> Reply
        ensures { Answers (Some (abort_b self.old.side.stage self.old.side abort)) result self.old self.new }
    {
        let kept = self.kept();
        let ended = match kept.stage {
            Stage::Idle => kept.attempt < abort.attempt,
            Stage::Prepared => kept.attempt <= abort.attempt,
            Stage::Owner => false,
        };
        if ended {
            self.turn(Stage::Idle, abort.attempt, None)
        } else {
            Reply::Done(None)
        }
    }

    /// Keeps a stage and an attempt beside the number, and only then sends the message.
    fn turn(&mut self, stage: Stage, attempt: u32, sends: Option<Message>) -> Reply
        ensures { Answers (Some (keeping (record self.old.side { stage = stage; attempt = attempt }) sends)) result self.old self.new }
    {
        let number = self.kept().number;
        self.keep(
            KeptB {
                stage,
                attempt,
                number,
            },
            sends,
        )
    }

    /// Keeps a value, and only then sends the message.
    fn keep(&mut self, kept: KeptB, sends: Option<Message>) -> Reply
        ensures { Answers (Some (keeping kept sends)) result self.old self.new }
    {
        match self.keeper.keep(kept) {
            Ok(()) => Reply::Done(sends),
            Err(_) => Reply::Failed,
        }
    }
}
