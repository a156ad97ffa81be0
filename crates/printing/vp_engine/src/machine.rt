//! The machines: each a reader and what it drives. Only here has each language an arm.
ghost use Rattle.std.specs.Prelude.{◌≡◌, ◌<◌, ◌≤◌, ◌↔◌, ◌++◌, List, [], ℕ, IsTrue, IfOk, None, flat_map, length, min, take, drop};
ghost use Rattle.vp_engine.specs.Answers.{IsBounded};
ghost use Rattle.vp_esc.specs.declared.reading.Reading.{Reading as EscReading};
ghost use Rattle.vp_engine.specs.Lines.{listed_line};
ghost use Rattle.vp_streams.specs.Count.{grown};
ghost use Rattle.vp_engine.specs.Memory.{machine_memory};
ghost use Rattle.vp_engine.specs.Machines.{machine_of, pending_of, MachineStands};
ghost use Rattle.vp_engine.specs.Paper.{missing};
ghost use Rattle.vp_engine.specs.Setups.{Setup, Item, EscPos, Zpl, Receipts, Labels, ListingIn, commands_of, setup_of, rules_of, lines_of};
ghost use Rattle.vp_engine.specs.Takes.{Takes, TakesRun};
ghost use Rattle.vp_engine.specs.Work.{machine_work, IsWorkAfter};
ghost use Rattle.vp_esc.specs.Lines.{line_of};
ghost use Rattle.vp_esc.specs.Reader.{Stands as EscStands};
ghost use Rattle.vp_esc.specs.Split.{fault_of};
ghost use Rattle.vp_receipt.specs.Standing.{Stands as ReceiptStands};
ghost use Rattle.vp_receipt_settings.specs.Setup.{Setup as ReceiptSetup};
ghost use Rattle.vp_streams.specs.Count.{grown};
ghost use Rattle.vp_zpl.specs.Lines.{line_of as label_line_of};
ghost use Rattle.vp_zpl.specs.Shown.{shown_item};

use crate::held::{Held, NOTHING};
use crate::laws::items_grow;
use crate::lines::Lines;
use std::alloc::{AllocError, Global};
use vp_dots::{Fault, Small};
use vp_esc::{EscItem, EscReader, Reading};
use vp_glyph::Sheets;
use vp_label::Label;
use vp_label::laws::{data_in_turn, in_turn};
use vp_language::Language;
use vp_receipt::{Receipt, Width};
use vp_zpl::{Reading as ZplReading, ZplItem, ZplReader};

/// How many bytes were taken, and put out.
#[derive(Clone, Copy)]
pub struct Moved {
    pub taken: usize,
    pub put: usize,
}

/// What is missing where bytes end between commands or not, and all is printed or not.
fn missing(is_between: bool, at_rest: bool) -> Option<Fault>
    ensures { result ≡ missing is_between at_rest }
{
    if !is_between {
        return Some(Fault::Truncated);
    }
    if !at_rest {
        return Some(Fault::Unprinted);
    }
    None
}

/// Begins the line of a receipt's item.
// What prints doesn't pay for the room of a line, so this stands in no other function.
#[inline(never)]
fn begin_line(lines: &mut Lines, item: &EscItem)
    requires { lines.old.pending ≡ [] }
    ensures pending { lines.new.pending ≡ listed_line lines.old.taken (line_of item.now) }
    ensures count { lines.new.count ≡ grown lines.old.count 1 }
    ensures taken { lines.new.taken ≡ lines.old.taken }
{
    lines.begin(item.line().as_slice());
}

/// Begins the lines of a label's items.
// What prints doesn't pay for the room of a line, so this stands in no other function.
#[inline(never)]
fn begin_label_lines(lines: &mut Lines, item: &ZplItem<'_>)
    requires { lines.old.pending ≡ [] }
    ensures pending { lines.new.pending
        ≡ flat_map (λ i. listed_line lines.old.taken (label_line_of i)) (shown_item item.now) }
    ensures count { lines.new.count ≡ grown lines.old.count (length (shown_item item.now)) }
    ensures taken { lines.new.taken ≡ lines.old.taken }
{
    match item {
        ZplItem::Command(_) => lines.begin(item.line().as_slice()),
        ZplItem::Data(bytes) => lines.begin_bytes(bytes.as_slice()),
    }
}

/// Takes bytes of a receipt, and puts out all that they print: those that are skipped or stored, or text, or
/// bytes of a raster.
fn receipt_run<A: Small>(
    reader: &mut EscReader,
    receipt: &mut Receipt<A>,
    input: &[u8],
    output: &mut [u8],
) -> Moved
    requires { receipt.old.pending ≡ [] }
    ensures taken { result.taken ≤ length input.now }
    ensures put { result.put ≤ length output.old }
    ensures rest { drop result.put output.new ≡ drop result.put output.old }
    ensures pending { receipt.new.pending ≡ [] }
    ensures takes { (by : EscReading) (setup : ReceiptSetup) (t : List ℕ) (before : List EscItem) →
        EscStands by reader.old t → ReceiptStands setup receipt.old before → fault_of by t ≡ None →
        TakesRun (rules_of (Receipts by setup))
        (λ t before. EscStands by reader.new t × ReceiptStands setup receipt.new before) t before
        (take result.taken input.now) (take result.put output.new) }
{
    let skipped = reader.take_skipped(input);
    if skipped > 0 {
        return Moved {
            taken: skipped,
            put: 0,
        };
    }
    let room = receipt.text_room().min(input.len());
    let text = reader.take_text(&input[..room]);
    if text > 0 {
        receipt.apply_text(&input[..text]);
        return Moved {
            taken: text,
            put: 0,
        };
    }
    let stored = reader.take_stored(input);
    if stored > 0 {
        receipt.apply_stored(&input[..stored]);
        return Moved {
            taken: stored,
            put: 0,
        };
    }
    let room = receipt.rows_room(output.len()).min(input.len());
    let n = reader.take_raster(&input[..room]);
    let put = receipt.put_rows(&input[..n], output);
    Moved { taken: n, put }
}

#[derive(Drop)]
pub enum Machine<A: Small = Global> {
    Receipt {
        reader: EscReader,
        receipt: Receipt<A>,
    },
    ReceiptLines {
        reader: EscReader,
        lines: Lines,
    },
    Label {
        reader: ZplReader,
        label: Label<A>,
    },
    LabelLines {
        reader: ZplReader,
        lines: Lines,
    },
}

impl<A: Small + Copy> Machine<A> {
    /// One that prints a language, and took nothing.
    pub fn printing(alloc: A, language: Language, sheets: Sheets<A>) -> Result<Self, AllocError>
        ensures stands { IfOk result (λ m. MachineStands (machine_of m) (setup_of language sheets) [] []) }
        ensures pending { IfOk result (λ m. pending_of (machine_of m) ≡ []) }
    {
        match language {
            Language::Receipt => Machine::receipt(alloc, sheets, Width::W576, Reading::Profile),
            Language::Receipt58 => Machine::receipt(alloc, sheets, Width::W384, Reading::Profile),
            Language::WholeReceipt => Machine::receipt(alloc, sheets, Width::W576, Reading::Whole),
            Language::WholeReceipt58 => Machine::receipt(
                alloc,
                sheets,
                Width::W384,
                Reading::Whole,
            ),
            Language::Label => Machine::label(alloc, sheets, ZplReading::Profile),
            Language::WholeLabel => Machine::label(alloc, sheets, ZplReading::Whole),
        }
    }

    fn receipt(
        alloc: A,
        sheets: Sheets<A>,
        width: Width,
        reading: Reading,
    ) -> Result<Self, AllocError>
        ensures stands { IfOk result (λ m. MachineStands (machine_of m)
            (Receipts reading (record { width = width; sheets = sheets })) [] []) }
        ensures pending { IfOk result (λ m. pending_of (machine_of m) ≡ []) }
    {
        let receipt = Receipt::new(alloc, sheets, width)?;
        Ok(Machine::Receipt {
            reader: EscReader::new(reading),
            receipt,
        })
    }

    fn label(alloc: A, sheets: Sheets<A>, reading: ZplReading) -> Result<Self, AllocError>
        ensures stands { IfOk result (λ m. MachineStands (machine_of m) (Labels reading sheets) [] []) }
        ensures pending { IfOk result (λ m. pending_of (machine_of m) ≡ []) }
    {
        let label = Label::new(alloc, sheets)?;
        Ok(Machine::Label {
            reader: ZplReader::new(reading),
            label,
        })
    }
}

impl<A: Small> Machine<A> {
    /// One that lists a language, with the places of its items or without, and took nothing.
    pub fn listing(language: Language, with_offsets: bool) -> Self
        ensures stands { MachineStands (machine_of result) (ListingIn with_offsets
            (commands_of language)) [] [] }
        ensures pending { pending_of (machine_of result) ≡ [] }
    {
        match language {
            Language::Receipt | Language::Receipt58 => Machine::receipt_lines(
                Reading::Profile,
                with_offsets,
            ),
            Language::WholeReceipt | Language::WholeReceipt58 => Machine::receipt_lines(
                Reading::Whole,
                with_offsets,
            ),
            Language::Label => Machine::label_lines(ZplReading::Profile, with_offsets),
            Language::WholeLabel => Machine::label_lines(ZplReading::Whole, with_offsets),
        }
    }

    fn receipt_lines(reading: Reading, with_offsets: bool) -> Self
        ensures stands { MachineStands (machine_of result) (ListingIn with_offsets (EscPos reading)) [] [] }
        ensures pending { pending_of (machine_of result) ≡ [] }
    {
        Machine::ReceiptLines {
            reader: EscReader::new(reading),
            lines: Lines::new(with_offsets),
        }
    }

    fn label_lines(reading: ZplReading, with_offsets: bool) -> Self
        ensures stands { MachineStands (machine_of result) (ListingIn with_offsets (Zpl reading)) [] [] }
        ensures pending { pending_of (machine_of result) ≡ [] }
    {
        Machine::LabelLines {
            reader: ZplReader::new(reading),
            lines: Lines::new(with_offsets),
        }
    }

    /// Begins anew: it took nothing.
    pub fn begin_anew(&mut self)
        ensures stands { (setup : Setup) (t : List ℕ) (before : List (Item setup)) →
            MachineStands (machine_of self.old) setup t before →
            MachineStands (machine_of self.new) setup [] [] }
        ensures pending { pending_of (machine_of self.new) ≡ [] }
        ensures memory { machine_memory (machine_of self.new) ≡ machine_memory (machine_of self.old) }
        ensures work { machine_work (machine_of self.new) ≡ 0 }
    {
        match self {
            Machine::Receipt { reader, receipt } => {
                reader.begin_anew();
                receipt.begin_anew();
            }
            Machine::ReceiptLines { reader, lines } => {
                reader.begin_anew();
                lines.begin_anew();
            }
            Machine::Label { reader, label } => {
                reader.begin_anew();
                label.begin_anew();
            }
            Machine::LabelLines { reader, lines } => {
                reader.begin_anew();
                lines.begin_anew();
            }
        }
    }

    /// Takes a byte where nothing is pending, and answers the fault that it makes.
    pub fn take(&mut self, byte: u8) -> Result<(), Fault>
        requires { pending_of (machine_of self.old) ≡ [] }
        ensures { (setup : Setup) (t : List ℕ) (before : List (Item setup)) →
            MachineStands (machine_of self.old) setup t before →
            Takes (rules_of setup) (MachineStands (machine_of self.new) setup) (pending_of
            (machine_of self.new)) t before byte result }
    {
        match self {
            Machine::Receipt { reader, receipt } => match reader.take(byte) {
                Ok(Some(item)) => receipt.apply(item),
                Ok(None) => Ok(()),
                Err(fault) => Err(fault),
            },
            Machine::ReceiptLines { reader, lines } => {
                items_grow();
                lines.advance(1);
                match reader.take(byte) {
                    Ok(Some(item)) => {
                        begin_line(lines, item);
                        Ok(())
                    }
                    Ok(None) => Ok(()),
                    Err(fault) => Err(fault),
                }
            }
            Machine::Label { reader, label } => {
                in_turn();
                data_in_turn();
                match reader.take(byte) {
                    Some(item) => label.apply(item),
                    None => Ok(()),
                }
            }
            Machine::LabelLines { reader, lines } => {
                items_grow();
                lines.advance(1);
                if let Some(item) = reader.take(byte) {
                    begin_label_lines(lines, &item);
                }
                Ok(())
            }
        }
    }

    /// Takes bytes at the front and puts out all that they print, as far as it has a quick way.
    pub fn take_run(&mut self, input: &[u8], output: &mut [u8]) -> Moved
        requires { pending_of (machine_of self.old) ≡ [] }
        ensures taken { result.taken ≤ length input.now }
        ensures put { result.put ≤ length output.old }
        ensures rest { drop result.put output.new ≡ drop result.put output.old }
        ensures pending { pending_of (machine_of self.new) ≡ [] }
        ensures takes { (setup : Setup) (t : List ℕ) (before : List (Item setup)) →
            MachineStands (machine_of self.old) setup t before →
            (rules_of setup).reading.fault_of t ≡ None →
            TakesRun (rules_of setup) (MachineStands (machine_of self.new) setup) t before
            (take result.taken input.now) (take result.put output.new) }
    {
        match self {
            Machine::Receipt { reader, receipt } => receipt_run(reader, receipt, input, output),
            Machine::ReceiptLines { reader, lines } => {
                items_grow();
                let room = lines.room(output.len()).min(input.len());
                let n = reader.take_raster(&input[..room]);
                let put = lines.put_bytes(&input[..n], output);
                Moved { taken: n, put }
            }
            Machine::Label { reader, label } => {
                in_turn();
                data_in_turn();
                let room = label.data_room().min(input.len());
                let n = reader.take_data(&input[..room]);
                label.apply_data(&input[..n]);
                Moved { taken: n, put: 0 }
            }
            Machine::LabelLines { reader, lines } => {
                items_grow();
                let room = lines.room(output.len()).min(input.len());
                let n = reader.take_data(&input[..room]);
                let put = lines.put_bytes(&input[..n], output);
                Moved { taken: n, put }
            }
        }
    }

    /// Whether anything is still to be put out.
    pub fn pending(&self) -> bool
        ensures { IsTrue result ↔ (0 < length (pending_of (machine_of self.now))) }
    {
        match self {
            Machine::Receipt { receipt, .. } => receipt.pending(),
            Machine::ReceiptLines { lines, .. } => lines.pending(),
            Machine::Label { label, .. } => label.pending(),
            Machine::LabelLines { lines, .. } => lines.pending(),
        }
    }

    /// Puts out what is pending, as far as there is room.
    pub fn put(&mut self, output: &mut [u8]) -> usize
        ensures count { result ≡ min (length (pending_of (machine_of self.old))) (length output.old) }
        ensures bytes { output.new ≡
            take result (pending_of (machine_of self.old)) ++ drop result output.old }
        ensures rest { pending_of (machine_of self.new) ≡ drop result (pending_of (machine_of self.old)) }
        ensures stands { (setup : Setup) (t : List ℕ) (before : List (Item setup)) →
            MachineStands (machine_of self.old) setup t before →
            MachineStands (machine_of self.new) setup t before }
    {
        match self {
            Machine::Receipt { receipt, .. } => receipt.put(output),
            Machine::ReceiptLines { lines, .. } => lines.put(output),
            Machine::Label { label, .. } => label.put(output),
            Machine::LabelLines { lines, .. } => lines.put(output),
        }
    }

    /// What is missing where the bytes end.
    pub fn ending(&self) -> Option<Fault>
        ensures { (setup : Setup) (t : List ℕ) (before : List (Item setup)) →
            MachineStands (machine_of self.now) setup t before →
            (rules_of setup).reading.fault_of t ≡ None →
            result ≡ missing ((rules_of setup).reading.is_between t) ((rules_of setup).is_at_rest before) }
    {
        match self {
            Machine::Receipt { reader, receipt } => missing(reader.at_rest(), receipt.at_rest()),
            Machine::ReceiptLines { reader, .. } => missing(reader.at_rest(), true),
            Machine::Label { reader, label } => missing(reader.at_rest(), label.at_rest()),
            Machine::LabelLines { reader, .. } => missing(reader.at_rest(), true),
        }
    }

    /// What the machine holds now.
    pub fn held(&self) -> Held
        ensures value { (setup : Setup) (t : List ℕ) (before : List (Item setup)) →
            MachineStands (machine_of self.now) setup t before →
            result ≡ (rules_of setup).held before (pending_of (machine_of self.now)) }
        ensures most { IsBounded result }
    {
        match self {
            Machine::Receipt { receipt, .. } => Held {
                line_rows: receipt.line_rows(),
                page_rows: receipt.page_rows(),
                ..NOTHING
            },
            Machine::ReceiptLines { .. } => NOTHING,
            Machine::Label { label, .. } => Held {
                band_rows: label.band_rows(),
                stored: label.stored(),
                fields: label.fields(),
                ..NOTHING
            },
            Machine::LabelLines { .. } => NOTHING,
        }
    }

    /// The bytes of memory that it holds, on the heap.
    pub fn memory(&self) -> usize
        ensures { result ≡ machine_memory (machine_of self.now) }
    {
        match self {
            Machine::Receipt { receipt, .. } => receipt.memory(),
            Machine::ReceiptLines { .. } => 0,
            Machine::Label { label, .. } => label.memory(),
            Machine::LabelLines { .. } => 0,
        }
    }

    /// What it tells of its work.
    pub fn work(&self) -> u64
        ensures value { result ≡ machine_work (machine_of self.now) }
        ensures bounds { (setup : Setup) (t : List ℕ) (before : List (Item setup)) →
            MachineStands (machine_of self.now) setup t before →
            IsWorkAfter setup before (pending_of (machine_of self.now)) result }
    {
        match self {
            Machine::Receipt { receipt, .. } => receipt.work(),
            Machine::ReceiptLines { .. } => 0,
            Machine::Label { label, .. } => label.work(),
            Machine::LabelLines { .. } => 0,
        }
    }

    /// How many lines of a listing there were.
    pub fn lines(&self) -> u64
        ensures { (setup : Setup) (t : List ℕ) (before : List (Item setup)) →
            MachineStands (machine_of self.now) setup t before →
            result ≡ lines_of setup before }
    {
        match self {
            Machine::Receipt { .. } => 0,
            Machine::ReceiptLines { lines, .. } => lines.count(),
            Machine::Label { .. } => 0,
            Machine::LabelLines { lines, .. } => lines.count(),
        }
    }
}
