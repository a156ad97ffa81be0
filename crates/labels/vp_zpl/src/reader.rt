//! The reader: one byte at a time.
ghost use Rattle.std.specs.Prelude.{◌≡◌, ◌∷◌, ◌++◌, [], ℕ, List, false, take, length, ◌<◌, ◌≤◌, ⊤};
ghost use Rattle.std.specs.Borrow.{sem};
ghost use Rattle.vp_zpl.specs.declared.reading.Reading.{Reading};
ghost use Rattle.vp_zpl.specs.Commands.{Cut, cut, wants_binary};
ghost use Rattle.vp_zpl.specs.Spelling.{kept};
ghost use Rattle.vp_zpl.specs.Arguments.{command_of as command_as};
ghost use Rattle.vp_zpl.specs.Items.{items, data_items, at_rest};
ghost use Rattle.vp_zpl.specs.Shown.{shown_items, shown_part, shown_parts};
ghost use Rattle.vp_zpl.specs.Reader.{Stands, StandsIn, Goes, Ends, Advances, Continues, Closes, shown_event, behind_head, left_of, phase_behind as phase_is, at_name, indicator_with, left_over, rests_in, front_by, phase_after};
ghost use Rattle.vp_zpl.specs.Runs.{data_front};

use crate::argument::command_of;
use crate::front::{code_front, is_line_end, is_sign, text_front};
use crate::item::{Command, DataBytes, Sent, ZplItem};
use crate::name::{Kind, Name, kind_named};
use crate::part::{Part, count_of, hex, hex_byte, indicator_of, is_b};
use crate::reading::Reading;
use arrayvec::ArrayVec;

/// Where in a command the reader is.
#[derive(Clone, Copy)]
enum Phase {
    /// Before the first sign.
    Outside,
    AfterSign(u8),
    AfterFirst(u8, u8),
    /// Behind a command that takes nothing.
    Skipping,
    Parameters(Kind),
    /// Among the data of a field.
    Text,
    /// Behind this indicator.
    AfterIndicator(u8),
    /// Behind an indicator and a hex digit.
    AfterDigit(u8, u8),
    /// Among the data of ^GF A.
    Codes,
    /// Among the data of ^GF B, or behind them: how many of their bytes are left.
    Binary(u32),
}

/// What a byte gives; what it shows is the reader's.
#[derive(Clone, Copy)]
enum Event {
    Nothing,
    Given,
    Data,
}

/// A reader of a label's bytes.
#[derive(Drop)]
pub struct ZplReader {
    reading: Reading,
    phase: Phase,
    /// The command in hand, with the parameters that are ended.
    sent: Sent,
    in_format: bool,
    /// The indicator that acts on data.
    indicator: Option<u8>,
    /// The parameter that isn't.
    part: Part,
    /// The data that were known last.
    known: DataBytes,
}

impl ZplReader {
    ghost use Rattle.vp_zpl.specs.Lent.{Leaves};

    /// A reader of no bytes, by these commands.
    pub fn new(reading: Reading) -> Self
        ensures stands { Stands reading result [] }
        ensures nothing { items reading [] ≡ [] }
    {
        ZplReader {
            reading,
            phase: Phase::Outside,
            sent: Sent {
                command: Command::Skipped,
                name: Name {
                    sign: 0,
                    first: 0,
                    second: 0,
                },
                parameters: ArrayVec::new(),
            },
            in_format: false,
            indicator: None,
            part: Part::new(),
            known: DataBytes::One([0]),
        }
    }

    /// Begins anew: it stands after no bytes, and reads by the commands that it was made with.
    pub fn begin_anew(&mut self)
        ensures { (reading : Reading) (bytes : List ℕ) → Stands reading self.old bytes →
            Stands reading self.new [] }
    {
        self.phase = Phase::Outside;
        self.in_format = false;
        self.indicator = None;
    }

    /// Data have become known.
    fn data(&mut self, bytes: DataBytes) -> Event
        ensures event { result ≡ Event.Data }
        ensures state { self.new ≡ record self.old { known = bytes } }
    {
        self.known = bytes;
        Event::Data
    }

    /// A comma or the end has ended a parameter.
    fn end_parameter(&mut self)
        ensures rest { self.new ≡ record self.old {
          sent = record self.old.sent { parameters = self.new.sent.parameters };
          part = self.new.part;
        } }
        ensures kept { shown_parts self.new.sent.parameters.items
            ≡ take 8 (shown_parts self.old.sent.parameters.items ++ shown_part self.old.part ∷ []) }
        ensures part { shown_part self.new.part ≡ kept [] }
    {
        let part = self.part.take();
        if self.sent.parameters.is_full() {
            return;
        }
        self.sent.parameters.push(part);
    }

    /// The byte that makes a name whole.
    fn call(&mut self, sign: u8, first: u8, second: u8) -> Event
        ensures { Continues (Phase.AfterFirst sign first) second result self.old self.new }
    {
        let kind = kind_named(self.reading, sign, first, second);
        self.sent.name = Name::new(sign, first, second);
        self.sent.parameters.clear();
        self.part = Part::new();
        self.in_format = kind.in_format(self.in_format);
        self.indicator = kind.indicator(self.indicator);
        self.phase = phase_behind(kind);
        self.called(kind)
    }

    /// The command of the parameters that are ended is given.
    fn give(&mut self, kind: Kind) -> Event
        ensures event { result ≡ Event.Given }
        ensures state { self.new ≡ record self.old {
          sent = record self.old.sent {
            command = command_as kind (shown_parts self.old.sent.parameters.items);
          };
        } }
    {
        self.sent.command = command_of(kind, self.sent.parameters.as_slice());
        Event::Given
    }

    /// What a command gives at its name: itself, unless parameters come first.
    fn called(&mut self, kind: Kind) -> Event
        requires { self.old.sent.parameters.items ≡ [] }
        ensures shows { shown_event result self.new ≡ at_name kind self.old.sent.name }
        ensures rest { self.new
            ≡ record self.old { sent = record self.old.sent { command = self.new.sent.command } } }
    {
        match kind {
            Kind::FieldHex | Kind::Plain(_) | Kind::Graphic => Event::Nothing,
            _ => self.give(kind),
        }
    }

    /// A byte among parameters.
    fn parameter(&mut self, kind: Kind, byte: u8) -> Event
        ensures { Continues (Phase.Parameters kind) byte result self.old self.new }
    {
        if byte == b' ' {
            return Event::Nothing;
        }
        if byte != b',' {
            self.part.push(byte);
            return Event::Nothing;
        }
        self.comma(kind)
    }

    /// A comma behind a parameter.
    fn comma(&mut self, kind: Kind) -> Event
        ensures { Continues (Phase.Parameters kind) 0x2C result self.old self.new }
    {
        self.end_parameter();
        let Kind::Graphic = kind else {
            return Event::Nothing;
        };
        if self.sent.parameters.len() < 4 {
            return Event::Nothing;
        }
        self.phase = graphic_phase(self.sent.parameters.as_slice());
        self.give(kind)
    }

    /// A byte of the data of a field.
    fn text(&mut self, byte: u8) -> Event
        ensures { Continues Phase.Text byte result self.old self.new }
    {
        let Some(x) = self.indicator else {
            return self.data(DataBytes::One([byte]));
        };
        if byte == x {
            self.phase = Phase::AfterIndicator(byte);
            return Event::Nothing;
        }
        self.data(DataBytes::One([byte]))
    }

    /// A byte of the data of a field behind an indicator.
    fn indicated(&mut self, x: u8, byte: u8) -> Event
        ensures { Continues (Phase.AfterIndicator x) byte result self.old self.new }
    {
        if let Some(_) = hex(byte) {
            self.phase = Phase::AfterDigit(x, byte);
            return Event::Nothing;
        }
        if byte == x {
            return self.data(DataBytes::One([x]));
        }
        self.phase = Phase::Text;
        self.data(DataBytes::Two([x, byte]))
    }

    /// A byte of the data of a field behind an indicator and a hex digit.
    fn digit(&mut self, x: u8, high: u8, byte: u8) -> Event
        ensures { Continues (Phase.AfterDigit x high) byte result self.old self.new }
    {
        if let Some(both) = hex_byte(high, byte) {
            self.phase = Phase::Text;
            return self.data(DataBytes::One([both]));
        }
        if byte == x {
            self.phase = Phase::AfterIndicator(x);
            return self.data(DataBytes::Two([x, high]));
        }
        self.phase = Phase::Text;
        self.data(DataBytes::Three([x, high, byte]))
    }

    /// A byte of ^GF A.
    fn code(&mut self, byte: u8) -> Event
        ensures { Continues Phase.Codes byte result self.old self.new }
    {
        if byte == b' ' || byte == b'\t' {
            return Event::Nothing;
        }
        self.data(DataBytes::One([byte]))
    }

    /// A byte that the open command takes.
    fn more(&mut self, byte: u8) -> Event
        ensures { (reading : Reading) (before : List (List ℕ)) (command : List ℕ) →
            StandsIn reading self.old before command → wants_binary reading command ≡ false →
            Goes reading (shown_event result self.new) self.new before command byte }
    {
        match self.phase {
            Phase::Outside => Event::Nothing,
            Phase::Skipping => Event::Nothing,
            Phase::Binary(_) => Event::Nothing,
            Phase::AfterSign(sign) => {
                self.phase = Phase::AfterFirst(sign, byte);
                Event::Nothing
            }
            Phase::AfterFirst(sign, first) => self.call(sign, first, byte),
            Phase::Parameters(kind) => self.parameter(kind, byte),
            Phase::Text => self.text(byte),
            Phase::AfterIndicator(x) => self.indicated(x, byte),
            Phase::AfterDigit(x, high) => self.digit(x, high, byte),
            Phase::Codes => self.code(byte),
        }
    }

    /// How many bytes of binary data are still wanted.
    fn wanted(&self) -> u32
        ensures { result ≡ left_of self.now.phase }
    {
        match self.phase {
            Phase::Binary(left) => left,
            _ => 0,
        }
    }

    /// A byte of binary data.
    fn binary(&mut self, left: u32, byte: u8) -> Event
        ensures { (reading : Reading) (before : List (List ℕ)) (command : List ℕ) →
            StandsIn reading self.old before command → left_of self.old.phase ≡ left → 0 < left →
            Goes reading (shown_event result self.new) self.new before command byte }
    {
        self.phase = Phase::Binary(left.saturating_sub(1));
        self.data(DataBytes::One([byte]))
    }

    /// The end of parameters.
    fn end_parameters(&mut self, kind: Kind) -> Event
        ensures { Closes (λ q. q ≡ Phase.Parameters kind) result self.old self.new }
    {
        self.end_parameter();
        self.indicator = self.indicator_set(kind);
        self.give(kind)
    }

    /// The indicator behind a command with these parameters.
    fn indicator_set(&self, kind: Kind) -> Option<u8>
        ensures { result ≡ indicator_with kind (shown_parts self.now.sent.parameters.items)
            self.now.in_format self.now.indicator }
    {
        match kind {
            Kind::FieldHex => {
                if self.in_format {
                    return Some(indicator_of(self.sent.parameters.as_slice()));
                }
                self.indicator
            }
            _ => self.indicator,
        }
    }

    /// Data that may yet be spelled are themselves.
    fn undecided(&mut self) -> Event
        ensures shows { (r : ZplReader) → r.known ≡ self.new.known →
            shown_event result r ≡ data_items (left_over self.old.phase) }
        ensures rest { self.new ≡ record self.old { known = self.new.known } }
    {
        match self.phase {
            Phase::AfterIndicator(x) => self.data(DataBytes::One([x])),
            Phase::AfterDigit(x, high) => self.data(DataBytes::Two([x, high])),
            _ => Event::Nothing,
        }
    }

    /// What stands open ends.
    fn end(&mut self) -> Event
        ensures { Closes (λ q. ⊤) result self.old self.new }
    {
        match self.phase {
            Phase::Parameters(kind) => self.end_parameters(kind),
            _ => self.undecided(),
        }
    }

    /// One byte, by the phase.
    fn step(&mut self, byte: u8) -> Event
        ensures { (reading : Reading) (s : Cut) → StandsIn reading self.old s.before s.open_one →
            Advances reading (shown_event result self.new) self.new s byte }
    {
        let left = self.wanted();
        if left > 0 {
            return self.binary(left, byte);
        }
        if is_line_end(byte) {
            return Event::Nothing;
        }
        if is_sign(byte) {
            let event = self.end();
            self.phase = Phase::AfterSign(byte);
            return event;
        }
        self.more(byte)
    }

    /// Takes the next byte, and gives what it makes known: a command at its name, at ^GF's fourth comma or at
    /// the sign that ends it, or data as soon as they are known, up to three bytes behind ^FH. A command is
    /// the reader's and stands until the next byte.
    pub fn take(&mut self, byte: u8) -> Option<ZplItem<'_>>
        ensures* stands { sem 𝓛 (Leaves self.entry (λ new. (reading : Reading) (bytes : List ℕ) →
            Stands reading self.old bytes → Stands reading new (bytes ++ byte ∷ []))) }
        ensures gives { (reading : Reading) (bytes : List ℕ) → Stands reading self.old bytes →
            items reading (bytes ++ byte ∷ []) ≡ items reading bytes ++ shown_items result }
    {
        match self.step(byte) {
            Event::Nothing => None,
            Event::Given => Some(ZplItem::Command(&self.sent)),
            Event::Data => Some(ZplItem::Data(&self.known)),
        }
    }

    /// Takes the bytes at the front of the input that are data by themselves: none but in the data of ^FD,
    /// where no byte of them can be one that ^FH spells, and of ^GF. They may be taken one by one as well.
    pub fn take_data(&mut self, input: &[u8]) -> usize
        ensures count { (reading : Reading) (bytes : List ℕ) → Stands reading self.old bytes →
            result ≡ data_front reading (cut reading bytes) input.now }
        ensures fits { result ≤ length input.now }
        ensures gives { (reading : Reading) (bytes : List ℕ) (n : ℕ) → Stands reading self.old bytes →
            n ≤ result →
            items reading (bytes ++ take n input.now) ≡ items reading bytes ++ data_items (take n input.now) }
        ensures stands { (reading : Reading) (bytes : List ℕ) → Stands reading self.old bytes →
            Stands reading self.new (bytes ++ take result input.now) }
    {
        let n = self.phase.front(self.indicator, input);
        self.phase = self.phase.after(n);
        n
    }

    /// Whether nothing is begun that more bytes have to end.
    pub fn at_rest(&self) -> bool
        ensures { (reading : Reading) (bytes : List ℕ) → Stands reading self.now bytes →
            result ≡ at_rest reading bytes }
    {
        self.phase.rests(self.in_format)
    }
}

impl Phase {
    /// How many bytes at the front are data by themselves there.
    fn front(self, indicator: Option<u8>, input: &[u8]) -> usize
        ensures { result ≡ front_by self indicator input.now }
    {
        match self {
            Phase::Text => text_front(indicator, input),
            Phase::Codes => code_front(input),
            Phase::Binary(left) => input.len().min(left as usize),
            _ => 0,
        }
    }

    /// The phase behind `n` bytes that are data by themselves there.
    fn after(self, n: usize) -> Phase
        ensures { result ≡ phase_after self n }
    {
        match self {
            Phase::Binary(left) => Phase::Binary((left as usize).saturating_sub(n) as u32),
            other => other,
        }
    }

    /// Whether nothing is begun there that more bytes have to end.
    fn rests(self, in_format: bool) -> bool
        ensures { result ≡ rests_in self in_format }
    {
        match self {
            Phase::Outside | Phase::Skipping => true,
            Phase::AfterSign(_) | Phase::AfterFirst(_, _) => false,
            Phase::Binary(left) => left == 0,
            _ => !in_format,
        }
    }
}

/// The phase behind a name.
fn phase_behind(kind: Kind) -> Phase
    ensures { result ≡ phase_is kind }
{
    match kind {
        Kind::FieldHex | Kind::Plain(_) | Kind::Graphic => Phase::Parameters(kind),
        Kind::FieldData => Phase::Text,
        _ => Phase::Skipping,
    }
}

/// The phase behind ^GF's head.
fn graphic_phase(head: &[Part]) -> Phase
    ensures { result ≡ behind_head (shown_parts head.now) }
{
    if is_b(head) {
        Phase::Binary(count_of(head))
    } else {
        Phase::Codes
    }
}
