//! What is gathered of the format that is open: all that is in force, its closed fields, and the bytes stored
//! for them, which are their data and what closing them made.
ghost use Rattle.std.specs.Prelude.{◌≡◌, ◌∷◌, [], List, ℕ, IfOk, IsOk, OnOk, OnErr, MatchResult, None, Some, length, true, ◌==◌, ◌<◌, ◌≤◌, ◌+◌, if◌then◌else◌};
ghost use Rattle.vp_glyph.specs.Sheets.{Sheets as Given_sheets};
ghost use Rattle.vp_zpl.specs.Spelling.{Kept};
ghost use Rattle.vp_zpl.specs.declared.name.Name.{Name};
ghost use Rattle.vp_zpl.specs.Items.Item.{Given};
ghost use Rattle.vp_zpl.specs.Items.{Item, data_items};
ghost use Rattle.vp_label_settings.specs.Formats.{followed_by, is_open, stored};
ghost use Rattle.vp_label_settings.specs.Laws.{AreParts, IsContent};
ghost use Rattle.vp_label.specs.Entries.{behind_made, closed, entries, parts_behind, printed_bytes, printed_entries, with_kept};
ghost use Rattle.vp_label.specs.Refusals.{closing_refusal, first_refusal, refusal};
ghost use Rattle.vp_label.specs.Gathered.{AreBehind, AreKept, Gathers, IsGathered, IsPrinted, data_room, to_print};
ghost use Rattle.vp_label.specs.Effects.{effect_of};
ghost use Rattle.vp_label.specs.Prints.{prints};

use std::alloc::{AllocError, Global};
use vp_closing::{closed, keep_made};
use vp_dots::{Fault, Small};
use vp_field::stored_behind;
use vp_format::{FIELDS, Format, STORED};
use vp_glyph::Sheets;
use vp_label_settings::laws::{between_formats, data_set_nothing, in_range};
use vp_label_settings::{FieldParts, InForce, OpenContent};
use vp_zpl::Command;

/// What is gathered of the format that is open.
#[derive(Drop)]
pub struct Gathered<A: Small = Global> {
    pub in_force: InForce,
    pub format: Format<A>,
    /// How many of the bytes that the format stores closing its fields made: the others are data.
    pub made: u32,
}

/// What a command does.
#[derive(Clone, Copy)]
pub enum Effect {
    /// The command sets what is in force, or nothing.
    Sets,
    /// The command begins a format (^XA).
    Begins,
    /// The command closes a field (^FS).
    Closes,
    /// The command closes a field and prints the format (^XZ).
    Prints,
}

impl Effect {
    /// What a command does to the format.
    fn of(is_open: bool, command: Command) -> Effect
        ensures { result ≡ effect_of is_open command }
    {
        if !is_open {
            return match command {
                Command::FormatStart => Effect::Begins,
                _ => Effect::Sets,
            };
        }
        match command {
            Command::FieldSeparator => Effect::Closes,
            Command::FormatEnd => Effect::Prints,
            _ => Effect::Sets,
        }
    }
}

/// A content whose data stand behind what closing other fields made.
fn behind_made(made: u32, given: u32, content: OpenContent) -> OpenContent
    requires content { IsContent given content }
    requires few { made + given ≤ STORED }
    ensures value { result ≡ behind_made made content }
    ensures content { IsContent (made + given) result }
{
    match content {
        OpenContent::Data { start } => OpenContent::Data {
            start: made + start,
        },
        OpenContent::Picture { head, start } => OpenContent::Picture {
            head,
            start: made + start,
        },
        OpenContent::Frame { .. } | OpenContent::Ring { .. } | OpenContent::Diagonal { .. } =>
            content,
    }
}

impl<A: Small> Gathered<A> {
    /// Nothing yet.
    pub fn new(alloc: A) -> Result<Self, AllocError>
    where
        A: Copy,
        ensures { IfOk result (λ g. (sheets : Given_sheets) → Gathers sheets g []) }
    {
        Ok(Gathered {
            in_force: InForce::new(),
            format: Format::new(alloc)?,
            made: 0,
        })
    }

    /// Begins anew: nothing is gathered yet. What the format holds, the next ^XA gives up.
    pub fn begin_anew(&mut self)
        ensures gathers { (sheets : Given_sheets) → Gathers sheets self.new [] }
        ensures format { self.new.format ≡ self.old.format }
    {
        self.in_force = InForce::new();
    }

    /// How many bytes of data there is room for: outside a format, where they aren't stored, as many as in
    /// one that has none.
    pub fn data_room(&self) -> usize
        ensures { result ≡ data_room self.now }
    {
        if !self.in_force.is_open {
            return STORED;
        }
        STORED - self.format.stored().len()
    }

    /// Takes data, which in a format are stored: all of them or, where there is no room, none (`StoreFull`).
    pub fn store(&mut self, bytes: &[u8]) -> Result<(), Fault>
        ensures refusal { (sheets : Given_sheets) (before : List Item) → Gathers sheets self.old before →
            MatchResult result (λ _. first_refusal sheets before (data_items bytes.now) ≡ None)
            (λ f. first_refusal sheets before (data_items bytes.now) ≡ Some f) }
        ensures stands { OnOk result ((sheets : Given_sheets) (before : List Item) →
            Gathers sheets self.old before →
            Gathers sheets self.new (followed_by before (data_items bytes.now))) }
        ensures some { OnOk result ((sheets : Given_sheets) →
            IsGathered sheets self.old → IsGathered sheets self.new) }
        ensures fields { self.new.format.fields ≡ self.old.format.fields }
        ensures room { (sheets : Given_sheets) → IsGathered sheets self.old →
            length bytes.now ≤ data_room self.old → IsOk result }
        ensures err { OnErr result (self.new ≡ self.old) }
    {
        data_set_nothing();
        if !self.in_force.is_open {
            return Ok(());
        }
        stored_behind();
        match self.format.keep(bytes) {
            Ok(()) => Ok(()),
            Err(_) => Err(Fault::StoreFull),
        }
    }

    /// The parts of the open field, whose data stand behind what closing other fields made.
    fn parts(&self) -> FieldParts
        requires { AreBehind self.now }
        ensures value { result ≡ parts_behind self.now.made self.now.in_force.parts }
        ensures parts { AreParts (length self.now.format.stored) result }
    {
        let parts = self.in_force.parts;
        let len = self.format.stored().len() as u32;
        let content = match parts.content {
            None => None,
            Some(content) => Some(behind_made(self.made, len - self.made, content)),
        };
        FieldParts { content, ..parts }
    }

    /// Closes the open field, if there is one. Refused is what it shows, and then one more field than there
    /// is room for (`FieldsFull`).
    fn close(&mut self, sheets: &Sheets<A>) -> Result<(), Fault>
        requires some { IsGathered sheets.now self.old }
        requires opened { self.old.in_force.is_open ≡ true }
        ensures refusal { (before : List Item) → Gathers sheets.now self.old before → is_open before ≡ true →
            MatchResult result
            (λ _. closing_refusal (closed sheets.now before) (length (entries sheets.now before)) ≡ None)
            (λ f. closing_refusal (closed sheets.now before) (length (entries sheets.now before)) ≡ Some f) }
        ensures in_force { self.new.in_force ≡ self.old.in_force }
        ensures fields { OnOk result ((before : List Item) → Gathers sheets.now self.old before →
            is_open before ≡ true →
            self.new.format.fields.items ≡ printed_entries sheets.now before) }
        ensures stored { OnOk result ((before : List Item) → Gathers sheets.now self.old before →
            is_open before ≡ true → self.new.format.stored ≡ printed_bytes before) }
        ensures made { OnOk result ((before : List Item) → Gathers sheets.now self.old before →
            is_open before ≡ true →
            self.new.made + length (stored before) ≡ length (printed_bytes before)) }
        ensures read { self.new.format.fields.read ≡ self.old.format.fields.read }
        ensures kept { OnOk result (AreKept self.new.format.stored self.new.format.fields.items) }
        ensures few { OnOk result (length self.new.format.stored ≤ STORED) }
        ensures err { OnErr result (self.new ≡ self.old) }
    {
        in_range();
        stored_behind();
        let parts = self.parts();
        let settings = &self.in_force.settings;
        let Some(closed) = closed(sheets, &self.format, settings, &parts) else {
            return Ok(());
        };
        let field = closed?;
        if self.format.len() == FIELDS {
            return Err(Fault::FieldsFull);
        }
        let before = self.format.stored().len();
        keep_made(&mut self.format, &parts);
        self.made += (self.format.stored().len() - before) as u32;
        let Ok(()) = self.format.close(field) else {
            unreachable!()
        };
        Ok(())
    }

    /// The copies that are printed of the format: none where it has no field.
    fn copies(&self) -> u32
        ensures { result ≡
            (if length self.now.format.fields.items == 0 then 0 else self.now.in_force.settings.quantity) }
    {
        if self.format.len() == 0 {
            return 0;
        }
        self.in_force.settings.quantity
    }

    /// Takes a command, and answers how many copies of the format it prints. A refused one changes nothing.
    pub fn obey(&mut self, command: Command, sheets: &Sheets<A>) -> Result<u32, Fault>
        requires { IsGathered sheets.now self.old }
        ensures refusal { (before : List Item) (name : Name) (sent : List Kept) →
            Gathers sheets.now self.old before →
            MatchResult result (λ _. refusal sheets.now before (Given command name sent) ≡ None)
            (λ f. refusal sheets.now before (Given command name sent) ≡ Some f) }
        ensures stands { OnOk result ((before : List Item) (name : Name) (sent : List Kept) →
            Gathers sheets.now self.old before →
            Gathers sheets.now self.new (Given command name sent ∷ before)) }
        ensures prints { IfOk result (λ copies. (before : List Item) (name : Name) (sent : List Kept) →
            Gathers sheets.now self.old before →
            to_print sheets.now self.new copies ≡ prints sheets.now before (Given command name sent)) }
        ensures printed { IfOk result (λ copies. (before : List Item) → Gathers sheets.now self.old before →
            0 < copies → IsPrinted sheets.now self.new before) }
        ensures kept { IfOk result (λ copies. 0 < copies →
            AreKept self.new.format.stored self.new.format.fields.items) }
        ensures some { OnOk result (IsGathered sheets.now self.new) }
        ensures read { self.new.format.fields.read ≡ self.old.format.fields.read }
        ensures err { OnErr result (self.new ≡ self.old) }
    {
        let given = (self.format.stored().len() as u32).saturating_sub(self.made);
        let in_force = self.in_force.after(command, given)?;
        match Effect::of(self.in_force.is_open, command) {
            Effect::Sets => {
                self.in_force = in_force;
                Ok(0)
            }
            Effect::Begins => {
                between_formats();
                self.format.clear();
                self.made = 0;
                self.in_force = in_force;
                Ok(0)
            }
            Effect::Closes => {
                self.close(sheets)?;
                self.in_force = in_force;
                Ok(0)
            }
            Effect::Prints => {
                self.close(sheets)?;
                let copies = self.copies();
                self.in_force = in_force;
                Ok(copies)
            }
        }
    }
}
