//! The text of a handover's script, read.

ghost use Rattle.std.specs.Prelude.{◌≡◌, ◌≢◌, List, None, Some, IfOk, IfErr};
ghost use Rattle.xv_text.specs.Lines.{fields};
ghost use Rattle.xv_text.specs.Reading.{IfFault};
ghost use Rattle.xv_handover.specs.Words.{node_in, node_fault, number_fault, number_in, alone_fault, args_fault, at_node, event_said};
ghost use Rattle.xv_handover.specs.Lines.{script_text};
ghost use Rattle.xv_handover.specs.Script.{line_fault, event_in, text_fault, text_events, IsScript};
ghost use Rattle.xv_handover.specs.declared.world.WorldEvent.{WorldEvent as WorldEventValue};

use crate::word::{NodeName, Word, node_of, word_of};
use crate::world::WorldEvent;
use std::alloc::Global;
use xv_base::{LineWhy, MOST_WORLD_EVENTS, TextError};
use xv_text::{
    Fields, Kind, LIMIT_OF_EVENTS, ReadsLines, Stop, first_field, read_fields, read_lines,
};

/// The events of a handover's script, to its line `stop`, which ends the text.
/// Errors: the first faulty line, and the first reason why it is refused; want of memory.
pub fn read_world(alloc: Global, text: &[u8]) -> Result<Vec<WorldEvent>, TextError>
    ensures fault { IfFault result (λ fault. text_fault text.now ≡ Some fault) }
    ensures no_fault { IfOk result (λ events. text_fault text.now ≡ None) }
    ensures events { IfOk result (λ events. events.items ≡ text_events text.now) }
    ensures text { IfOk result (λ events. text.now ≡ script_text events.items) }
    ensures script { IfOk result (λ events. IsScript events.items) }
    ensures only { IfOk result (λ found. (events : List WorldEventValue) → IsScript events → text.now ≡ script_text events → found.items ≡ events) }
    ensures refused { IfFault result (λ fault. (events : List WorldEventValue) → IsScript events → text.now ≢ script_text events) }
{
    read_text(alloc, text)
}

/// The events that the lines of a text say, as the definition of its first fault has it.
fn read_text(alloc: Global, text: &[u8]) -> Result<Vec<WorldEvent>, TextError>
    ensures fault { IfFault result (λ fault. text_fault text.now ≡ Some fault) }
    ensures no_fault { IfOk result (λ events. text_fault text.now ≡ None) }
    ensures events { IfOk result (λ events. events.items ≡ text_events text.now) }
{
    let mut read = EventsRead {
        events: Vec::new(alloc),
        is_stopped: false,
    };
    match read_lines(alloc, &mut read, text, 1, true) {
        Ok(_) => Ok(read.events),
        Err(error) => Err(error),
    }
}

/// A script as far as its lines have been read.
#[derive(Drop)]
struct EventsRead {
    events: Vec<WorldEvent>,
    is_stopped: bool,
}

impl ReadsLines for EventsRead {
    ghost use Rattle.xv_handover.specs.Script.{Script, reader as script_table};

    ghost State = { Script };

    ghost reader = { λ r. script_table };

    ghost state = { λ r. record { events = r.events.items; stopped = r.is_stopped } };

    ghost holds = { λ r. Unit {0} };

    fn is_ended(&self) -> bool {
        self.is_stopped
    }

    fn read_line(&mut self, _alloc: Global, line: &[u8]) -> Result<(), Stop> {
        match read_line(self.events.len(), line) {
            Ok(Some(event)) => match self.events.push(event) {
                Ok(()) => Ok(()),
                Err(_) => Err(Stop::NoMemory),
            },
            Ok(None) => {
                self.is_stopped = true;
                Ok(())
            }
            Err(why) => Err(Stop::Refused(why)),
        }
    }
}

/// What a line behind so many events says; none where it is `stop`, which may always come.
/// Errors: the first reason why the line is refused.
fn read_line(before: usize, line: &[u8]) -> Result<Option<WorldEvent>, LineWhy>
    ensures no_fault { IfOk result (λ found. line_fault before (fields line.now) ≡ None) }
    ensures event { IfOk result (λ found. event_in (fields line.now) ≡ found) }
    ensures fault { IfErr result (λ why. line_fault before (fields line.now) ≡ Some why) }
{
    let (first, args) = first_field(line);
    let Some(word) = word_of(first) else {
        return Err(LineWhy::BadWord);
    };
    match event_said(word, &args) {
        Ok(None) => Ok(None),
        Ok(Some(_)) if before >= MOST_WORLD_EVENTS as usize => {
            Err(LineWhy::Limit(LIMIT_OF_EVENTS))
        },
        Ok(Some(event)) => Ok(Some(event)),
        Err(why) => Err(why),
    }
}

/// What a word and the fields behind it say; none where the script stops.
/// Errors: the first reason why the fields are refused.
fn event_said(word: Word, args: &Fields) -> Result<Option<WorldEvent>, LineWhy>
    ensures no_fault { IfOk result (λ found. args_fault word args.now ≡ None) }
    ensures event { IfOk result (λ found. event_said word args.now ≡ found) }
    ensures fault { IfErr result (λ why. args_fault word args.now ≡ Some why) }
{
    match word {
        Word::Write => at_node(args, WorldEvent::WriteA, WorldEvent::WriteB),
        Word::Resend => at_node(args, WorldEvent::ResendA, WorldEvent::ResendB),
        Word::Restart => at_node(args, WorldEvent::RestartA, WorldEvent::RestartB),
        Word::Image => match number_in(args) {
            Ok(number) => Ok(Some(WorldEvent::Image(number))),
            Err(why) => Err(why),
        },
        Word::Pass => match number_in(args) {
            Ok(number) => Ok(Some(WorldEvent::Pass(number))),
            Err(why) => Err(why),
        },
        Word::Offer => alone(args, Some(WorldEvent::Offer)),
        Word::Withdraw => alone(args, Some(WorldEvent::Withdraw)),
        Word::Stop => alone(args, None),
    }
}

/// The event of the node that the fields name.
fn at_node(args: &Fields, at_a: WorldEvent, at_b: WorldEvent) -> Result<Option<WorldEvent>, LineWhy>
    ensures no_fault { IfOk result (λ found. node_fault (node_in args.now) ≡ None) }
    ensures event { IfOk result (λ found. found ≡ Some (at_node at_a at_b (node_in args.now))) }
    ensures fault { IfErr result (λ why. node_fault (node_in args.now) ≡ Some why) }
{
    match node_in(args) {
        Some(NodeName::A) => Ok(Some(at_a)),
        Some(NodeName::B) => Ok(Some(at_b)),
        None => Err(LineWhy::BadWord),
    }
}

/// The node that fields name; none where they are not one field with a node's name.
fn node_in(args: &Fields) -> Option<NodeName>
    ensures { result ≡ node_in args.now }
{
    match args.split_first() {
        Some((field, rest)) if rest.is_done() => node_of(field),
        Some(_) | None => None,
    }
}

/// The one number that fields say.
fn number_in(args: &Fields) -> Result<u32, LineWhy>
    ensures no_fault { IfOk result (λ number. number_fault args.now ≡ None) }
    ensures number { IfOk result (λ number. number ≡ number_in args.now) }
    ensures fault { IfErr result (λ why. number_fault args.now ≡ Some why) }
{
    match read_fields(&[Kind::Number], args) {
        Ok(row) => Ok(row.number(0)),
        Err(why) => Err(why),
    }
}

/// This event, where no field stands there.
fn alone(args: &Fields, event: Option<WorldEvent>) -> Result<Option<WorldEvent>, LineWhy>
    ensures no_fault { IfOk result (λ found. alone_fault args.now ≡ None) }
    ensures event { IfOk result (λ found. found ≡ event) }
    ensures fault { IfErr result (λ why. alone_fault args.now ≡ Some why) }
{
    match read_fields(&[], args) {
        Ok(_) => Ok(event),
        Err(why) => Err(why),
    }
}
