//! A printer between a reader and a writer.
ghost use Rattle.std.specs.Prelude.{◌≡◌, ◌≤◌, ◌<◌, ◌+◌, ◌++◌, List, [], ℕ, Option, None, Some, length, OnOk, Ok, Err, IfErr, IsTrue, ◌↔◌, IfOk, MatchResult, MatchOption};
ghost use Rattle.std.specs.Io.KnownBytes.{Consumes, Appends, IsAtEnd};
ghost use Rattle.vp_dots.specs.declared.fault.Fault.{Fault};
ghost use Rattle.vp_streams.specs.Count.{grown, one_more_if};
ghost use Rattle.vp_engine.specs.Memory.{memory_held};
ghost use Rattle.vp_engine.specs.Paper.{IsOfByte, IsOfEnd, history, before_fault, fault_at_end};
ghost use Rattle.vp_engine.specs.Session.{IsAt, Accepts, SameDesk, IsSomewhere, IsDrained, IsSettled, HasEnded, Reads, SamePrinter, Pumps, IsAgain, is_read_fault, is_write_fault};
ghost use Rattle.vp_engine.specs.Setups.{Setup, setup_of, rules_of, lines_of};
ghost use Rattle.vp_engine.specs.Setups.{Listing, ListingWithOffsets};
ghost use Rattle.vp_engine.specs.Stands.{Stands, IsFresh};

use crate::buffer::Buffer;
use crate::printer::Printer;
use std::alloc::{AllocError, Global};
use std::marker::Model;
use vp_dots::{Fault, Small};
use vp_glyph::Sheets;
use vp_language::Language;
use vp_streams::{Sink, Source};

/// The bytes taken and written since `new`; both counts stop at the greatest u64.
#[derive(Clone, Copy, Debug, PartialEq, Eq)]
pub struct Report {
    pub taken: u64,
    pub written: u64,
}

/// Why a run ended before its input was printed.
#[derive(Clone, Copy, Debug, PartialEq, Eq)]
pub enum RunFault {
    /// A fault after `after` bytes.
    Print { fault: Fault, after: u64 },
    /// A read failed.
    Read,
    /// A write failed, or took no byte.
    Write,
    /// The reader didn't end within 1,000,000,000 reads.
    TooManyTurns,
}

/// A printer, with what was read and not yet taken, and what was put out and not yet written.
#[derive(Drop)]
pub struct Session<A: Small = Global> {
    printer: Printer<A>,
    input: Buffer,
    output: Buffer,
    taken: u64,
    written: u64,
}

impl<A: Small> Model for Session<A> {
    ghost use Rattle.vp_engine.specs.Session.{Desk, IsSomewhere};

    ghost Value = { Desk };

    ghost view = { λ s. record {
      printer = s.printer;
      unread = s.input;
      unwritten = s.output;
      taken = s.taken;
      written = s.written;
    } };

    ghost invariant = { λ s. IsSomewhere (record {
      printer = s.printer;
      unread = s.input;
      unwritten = s.output;
      taken = s.taken;
      written = s.written;
    }) };
}

impl<A: Small + Copy> Session<A> {
    /// A session that read and wrote nothing. No memory is taken after it.
    pub fn new(alloc: A, language: Language, sheets: Sheets<A>) -> Result<Self, AllocError>
        ensures { IfOk result (λ s. IsAt (setup_of language sheets) s [] []) }
    {
        let printer = Printer::new(alloc, language, sheets)?;
        Ok(Session::over(printer))
    }
}

impl Session {
    /// One that writes a line for each item, and read and wrote nothing.
    pub fn listing(language: Language) -> Self
        ensures { IsAt (Listing language) result [] [] }
    {
        Session::over(Printer::listing(language))
    }

    /// One that writes a line for each item, behind its place, and read and wrote nothing.
    pub fn listing_with_offsets(language: Language) -> Self
        ensures { IsAt (ListingWithOffsets language) result [] [] }
    {
        Session::over(Printer::listing_with_offsets(language))
    }
}

impl<A: Small> Session<A> {
    /// One over a printer that took and put out nothing.
    fn over(printer: Printer<A>) -> Self
        requires { IsFresh printer }
        ensures { (setup : Setup) → Stands setup printer [] [] → IsAt setup result [] [] }
    {
        Session {
            printer,
            input: Buffer::new(),
            output: Buffer::new(),
            taken: 0,
            written: 0,
        }
    }

    /// Writes once.
    fn write_once<K: Sink>(&mut self, writer: &mut K) -> Result<(), RunFault>
        requires { 0 < length self.old.unwritten }
        ensures at { (setup : Setup) (r w : List ℕ) → IsAt setup self.old r w →
            Accepts (K.contents writer.old) (K.contents writer.new) setup self.new r w }
        ensures ok { OnOk result (K.failed_writes writer.new ≡ K.failed_writes writer.old) }
        ensures less { OnOk result (length self.new.unwritten < length self.old.unwritten) }
        ensures err { IfErr result (λ e. (e ≡ RunFault.Write)
            × (K.failed_writes writer.new ≡ grown (K.failed_writes writer.old) 1)) }
        ensures rest { SameDesk self.old self.new }
    {
        match writer.write(self.output.as_slice()) {
            Ok(n) => {
                if n == 0 {
                    return Err(RunFault::Write);
                }
                self.output.consume(n);
                self.written = self.written.saturating_add(n as u64);
                Ok(())
            }
            Err(_) => Err(RunFault::Write),
        }
    }

    fn has_output(&self) -> bool
        ensures { IsTrue result ↔ (0 < length self.now.unwritten) }
    {
        !self.output.is_empty()
    }

    /// Writes what the output holds.
    fn flush<K: Sink>(&mut self, writer: &mut K) -> Result<(), RunFault>
        ensures at { (setup : Setup) (r w : List ℕ) → IsAt setup self.old r w →
            Accepts (K.contents writer.old) (K.contents writer.new) setup self.new r w }
        ensures ok { OnOk result ((self.new.unwritten ≡ [])
            × (K.failed_writes writer.new ≡ K.failed_writes writer.old)) }
        ensures err { IfErr result (λ e. (e ≡ RunFault.Write)
            × (K.failed_writes writer.new ≡ grown (K.failed_writes writer.old) 1)) }
        ensures rest { SameDesk self.old self.new }
    {
        'writes: while self.has_output() {
            self.write_once(writer)?;
        }
        Ok(())
    }

    fn pending(&self) -> bool
        ensures { IsTrue result ↔ (0 < length self.now.printer.pending) }
    {
        self.printer.pending()
    }

    fn stopped(&self) -> Option<Fault>
        ensures value { result ≡ self.now.printer.stopped }
        ensures byte { MatchOption result Unit IsOfByte }
    {
        self.printer.stopped()
    }

    fn has_input(&self) -> bool
        ensures { IsTrue result ↔ (0 < length self.now.unread) }
    {
        !self.input.is_empty()
    }

    /// One step with the input.
    fn advance(&mut self)
        requires { self.old.unwritten ≡ [] }
        ensures at { (setup : Setup) (r w : List ℕ) → IsAt setup self.old r w → IsAt setup self.new r w }
        ensures less { 0 < length self.old.unread → self.old.printer.pending ≡ [] →
            self.old.printer.stopped ≡ None →
            length self.new.unread < length self.old.unread }
    {
        let step = self.output.step(&mut self.printer, self.input.as_slice());
        self.input.consume(step.taken);
        self.taken = self.taken.saturating_add(step.taken as u64);
    }

    /// One step with no input.
    fn refill(&mut self)
        requires { self.old.unwritten ≡ [] }
        ensures at { (setup : Setup) (r w : List ℕ) → IsAt setup self.old r w → IsAt setup self.new r w }
        ensures less { 0 < length self.old.printer.pending →
            length self.new.printer.pending < length self.old.printer.pending }
        ensures unread { self.new.unread ≡ self.old.unread }
    {
        self.output.step(&mut self.printer, &[]);
    }

    /// Writes all that is pending.
    fn drain<K: Sink>(&mut self, writer: &mut K) -> Result<(), RunFault>
        ensures at { (setup : Setup) (r w : List ℕ) → IsAt setup self.old r w →
            Accepts (K.contents writer.old) (K.contents writer.new) setup self.new r w }
        ensures ok { OnOk result (IsDrained self.new
            × (K.failed_writes writer.new ≡ K.failed_writes writer.old)) }
        ensures err { IfErr result (λ e. (e ≡ RunFault.Write)
            × (K.failed_writes writer.new ≡ grown (K.failed_writes writer.old) 1)) }
        ensures unread { self.new.unread ≡ self.old.unread }
    {
        'drains: loop {
            self.flush(writer)?;
            if !self.pending() {
                return Ok(());
            }
            self.refill();
        }
    }

    /// Prints the input that is held, and writes what it prints.
    fn settle<K: Sink>(&mut self, writer: &mut K) -> Result<(), RunFault>
        ensures at { (setup : Setup) (r w : List ℕ) → IsAt setup self.old r w →
            Accepts (K.contents writer.old) (K.contents writer.new) setup self.new r w }
        ensures ok { OnOk result (IsSettled self.new
            × (K.failed_writes writer.new ≡ K.failed_writes writer.old)) }
        ensures err { IfErr result (λ e. (e ≡ RunFault.Write)
            × (K.failed_writes writer.new ≡ grown (K.failed_writes writer.old) 1)) }
    {
        self.drain(writer)?;
        'inputs: while self.has_input() && self.stopped().is_none() {
            self.advance();
            self.drain(writer)?;
        }
        Ok(())
    }

    /// Reads once.
    fn fill<S: Source>(&mut self, reader: &mut S) -> Result<usize, RunFault>
        requires { self.old.unread ≡ [] }
        ensures at { (setup : Setup) (r w : List ℕ) → IsAt setup self.old r w →
            Reads (S.remaining reader.old) (S.remaining reader.new) setup self.new r w }
        ensures ok { OnOk result (S.failed_reads reader.new ≡ S.failed_reads reader.old) }
        ensures end { IfOk result (λ n. n ≡ 0 → (self.new.unread ≡ []) × IsAtEnd (S.remaining reader.new)) }
        ensures err { IfErr result (λ e. (e ≡ RunFault.Read)
            × (S.failed_reads reader.new ≡ grown (S.failed_reads reader.old) 1)) }
        ensures same { SamePrinter self.old self.new }
        ensures reads { S.reads reader.new ≡ grown (S.reads reader.old) 1 }
    {
        match self.input.read_from(reader) {
            Ok(n) => Ok(n),
            Err(_) => Err(RunFault::Read),
        }
    }

    fn report(&self) -> Report
        ensures taken { result.taken ≡ self.now.taken }
        ensures written { result.written ≡ self.now.written }
    {
        Report {
            taken: self.taken,
            written: self.written,
        }
    }

    fn finish(&self) -> Result<(), Fault>
        requires { self.now.printer.pending ≡ [] }
        ensures { (setup : Setup) (t o : List ℕ) → Stands setup self.now.printer t o →
            MatchResult result (λ _. fault_at_end (rules_of setup) t ≡ None)
            (λ f. fault_at_end (rules_of setup) t ≡ Some f) }
    {
        self.printer.finish()
    }

    /// It has read and written something.
    fn somewhere(&self)
        ensures { IsSomewhere self.now }
    {
        let _taken = self.taken;
    }

    /// The fault of a printer that has stopped, once all its paper is written.
    fn ended(&self) -> Option<Fault>
        ensures ended { (f : Fault) (after : ℕ) → HasEnded self.now f after → result ≡ Some f }
        ensures answer { MatchOption result Unit (λ f. HasEnded self.now f self.now.taken) }
        ensures byte { MatchOption result Unit IsOfByte }
    {
        if self.has_output() {
            return None;
        }
        self.printer.stopped()
    }

    /// Reads, prints and writes, until the reader ends or a fault comes.
    fn run<S: Source, K: Sink>(
        &mut self,
        reader: &mut S,
        writer: &mut K,
    ) -> Result<Report, RunFault>
        ensures pumps { (setup : Setup) (r w : List ℕ) → IsAt setup self.old r w →
            Pumps (S.remaining reader.old) (S.remaining reader.new) (K.contents writer.old)
            (K.contents writer.new) setup self.new r w result }
        ensures at_end { (f : Fault) (after : ℕ) → result ≡ Err (RunFault.Print f after) → IsOfEnd f →
            IsAtEnd (S.remaining reader.new) }
        ensures failed_reads { S.failed_reads reader.new ≡
            one_more_if (is_read_fault result) (S.failed_reads reader.old) }
        ensures failed_writes { K.failed_writes writer.new ≡
            one_more_if (is_write_fault result) (K.failed_writes writer.old) }
        ensures reads { S.reads reader.new ≤ S.reads reader.old + 1000000000 }
        ensures turns { result ≡ Err RunFault.TooManyTurns →
            S.reads reader.new ≡ grown (S.reads reader.old) 1000000000 }
    {
        'turns: for _turn in 0..1_000_000_000u32 {
            self.settle(writer)?;
            let report = self.report();
            if let Some(fault) = self.stopped() {
                return Err(RunFault::Print {
                    fault,
                    after: report.taken,
                });
            }
            let n = self.fill(reader)?;
            if n == 0 {
                return match self.finish() {
                    Ok(()) => Ok(report),
                    Err(fault) => Err(RunFault::Print {
                        fault,
                        after: report.taken,
                    }),
                };
            }
        }
        Err(RunFault::TooManyTurns)
    }

    /// Prints what a reader gives, up to its end or a fault, and writes what is printed. It reads at most
    /// 1,000,000,000 times. After a fault of a read or a write, or of an input that ended too early, a
    /// further call goes on where this one stood; after a fault of the stream it answers the same again.
    /// It takes no memory.
    pub fn pump<S: Source, K: Sink>(
        &mut self,
        reader: &mut S,
        writer: &mut K,
    ) -> Result<Report, RunFault>
        ensures pumps { (setup : Setup) (r w : List ℕ) → IsAt setup self.old r w →
            Pumps (S.remaining reader.old) (S.remaining reader.new) (K.contents writer.old)
            (K.contents writer.new) setup self.new r w result }
        ensures again { (f : Fault) (after : ℕ) → HasEnded self.old f after →
            IsAgain f after result self.old self.new × (reader.new ≡ reader.old) × (writer.new ≡ writer.old) }
        ensures at_end { (f : Fault) (after : ℕ) → result ≡ Err (RunFault.Print f after) → IsOfEnd f →
            IsAtEnd (S.remaining reader.new) }
        ensures failed_reads { S.failed_reads reader.new ≡
            one_more_if (is_read_fault result) (S.failed_reads reader.old) }
        ensures failed_writes { K.failed_writes writer.new ≡
            one_more_if (is_write_fault result) (K.failed_writes writer.old) }
        ensures reads { S.reads reader.new ≤ S.reads reader.old + 1000000000 }
        ensures turns { result ≡ Err RunFault.TooManyTurns →
            S.reads reader.new ≡ grown (S.reads reader.old) 1000000000 }
        ensures memory { memory_held self.new.printer ≡ memory_held self.old.printer }
    {
        self.somewhere();
        if let Some(fault) = self.ended() {
            return Err(RunFault::Print {
                fault,
                after: self.taken,
            });
        }
        self.run(reader, writer)
    }

    /// How many lines of a listing there were, where all that was read is taken; 0 where it is no listing.
    pub(crate) fn lines(&self) -> u64
        requires { self.now.unread ≡ [] }
        ensures { (setup : Setup) (r w : List ℕ) → IsAt setup self.now r w →
            result ≡ lines_of setup (history (rules_of setup) (before_fault (rules_of setup) r)) }
    {
        self.printer.lines()
    }
}
