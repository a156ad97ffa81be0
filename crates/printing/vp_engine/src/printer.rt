//! The printer: a machine, over bytes that come and go in any pieces.
ghost use Rattle.std.specs.Prelude.{◌≡◌, ◌≤◌, ◌<◌, ◌+◌, ◌∷◌, ◌++◌, ◌↔◌, List, [], ℕ, IsTrue, IsSome, IfOk, Some, None, Option, MatchOption, MatchResult, length, min, take, drop};
ghost use Rattle.vp_dots.specs.declared.fault.Fault.{Fault};
ghost use Rattle.vp_engine.specs.Answers.{IsMore, IsRoom, IsStopped, IsStill, IsBounded};
ghost use Rattle.vp_engine.specs.Machines.{machine_of, MachineStands, TookNothing};
ghost use Rattle.vp_engine.specs.Memory.{memory_held, memory_of};
ghost use Rattle.vp_engine.specs.Paper.{IsOfByte, history, before_fault, fault, fault_at_end, held_after};
ghost use Rattle.vp_engine.specs.Setups.{Setup, setup_of, rules_of, lines_of};
ghost use Rattle.vp_engine.specs.Setups.{Listing, ListingIn, ListingWithOffsets, commands_of};
ghost use Rattle.vp_engine.specs.Stands.{Stands};
ghost use Rattle.vp_engine.specs.Work.{work_told, IsWorkAfter};

use crate::held::Held;
use crate::laws::{items_grow, the_fault_tells_the_end};
use crate::machine::{Machine, Moved};
use std::alloc::{AllocError, Global};
use std::marker::Model;
use vp_dots::{Fault, Small};
use vp_glyph::Sheets;
use vp_language::Language;

/// What a step has come to.
#[derive(Clone, Copy, Debug, PartialEq, Eq)]
pub enum State {
    /// All input is taken, and nothing is pending.
    More,
    /// The output is full, and more is pending.
    Room,
    /// Nothing is taken or put out any more.
    Stopped(Fault),
}

/// How many bytes a step took and put out, and what it has come to.
#[derive(Clone, Copy, Debug, PartialEq, Eq)]
pub struct Step {
    pub taken: usize,
    pub put: usize,
    pub state: State,
}

/// A printer.
pub struct Printer<A: Small = Global> {
    machine: Machine<A>,
    stopped: Option<Fault>,
}

/// Its memory is given back here, whoever held it.
impl<A: Small> Drop for Printer<A> {
    fn drop(self) {
        let Printer {
            machine: _,
            stopped: _,
        } = self;
    }
}

impl<A: Small> Model for Printer<A> {
    ghost use Rattle.vp_engine.specs.Machines.{machine_of};
    ghost use Rattle.vp_engine.specs.Stands.{Engine, printer_of, StandsSomewhere};

    ghost Value = { Engine };

    ghost view = { λ p. printer_of (machine_of p.machine) p.stopped };

    ghost invariant = { λ p. StandsSomewhere (printer_of (machine_of p.machine) p.stopped) };
}

impl<A: Small + Copy> Printer<A> {
    /// A printer that took and put out nothing.
    pub fn new(alloc: A, language: Language, sheets: Sheets<A>) -> Result<Self, AllocError>
        ensures { IfOk result (λ p. Stands (setup_of language sheets) p [] []) }
    {
        let machine = Machine::printing(alloc, language, sheets)?;
        Ok(Printer::over(machine))
    }
}

impl Printer {
    /// One that prints a line for each item of a language, and took and put out nothing.
    pub fn listing(language: Language) -> Self
        ensures { Stands (Listing language) result [] [] }
    {
        Printer::listed(language, false)
    }

    /// One that prints a line for each item of a language, behind its place, and took and put out nothing.
    pub fn listing_with_offsets(language: Language) -> Self
        ensures { Stands (ListingWithOffsets language) result [] [] }
    {
        Printer::listed(language, true)
    }
}

impl<A: Small> Printer<A> {
    /// One that prints a line for each item of a language, behind its place or without, and took and put out
    /// nothing. It takes no memory of the allocator that its type names.
    pub fn listed(language: Language, with_offsets: bool) -> Self
        ensures { Stands (ListingIn with_offsets (commands_of language)) result [] [] }
    {
        Printer::over(Machine::listing(language, with_offsets))
    }

    /// One over a machine that took nothing.
    fn over(machine: Machine<A>) -> Self
        requires { TookNothing (machine_of machine) }
        ensures { (setup : Setup) → MachineStands (machine_of machine) setup [] [] →
            Stands setup result [] [] }
    {
        items_grow();
        Printer {
            machine,
            stopped: None,
        }
    }

    /// Begins anew, whatever was taken and put out: behind it the printer stands as a new one that was set up
    /// alike, with the same sheets. It takes no memory and gives none back.
    pub fn begin_anew(&mut self)
        ensures stands { (setup : Setup) (t o : List ℕ) → Stands setup self.old t o →
            Stands setup self.new [] [] }
        ensures idle { self.new.pending ≡ [] }
        ensures running { self.new.stopped ≡ None }
        ensures memory { memory_held self.new ≡ memory_held self.old }
        ensures work { work_told self.new ≡ 0 }
    {
        items_grow();
        self.machine.begin_anew();
        self.stopped = None;
    }

    /// Takes a byte where nothing is pending.
    fn take(&mut self, byte: u8)
        requires idle { self.old.pending ≡ [] }
        requires running { self.old.stopped ≡ None }
        ensures stands { (setup : Setup) (t o : List ℕ) → Stands setup self.old t o →
            Stands setup self.new (t ++ byte ∷ []) o }
        ensures memory { memory_held self.new ≡ memory_held self.old }
    {
        items_grow();
        self.stopped = self.machine.take(byte).err();
    }

    /// Takes bytes at the front and puts out all that they print, as far as there is a quick way.
    fn take_run(&mut self, input: &[u8], output: &mut [u8]) -> Moved
        requires idle { self.old.pending ≡ [] }
        requires running { self.old.stopped ≡ None }
        ensures taken { result.taken ≤ length input.now }
        ensures put { result.put ≤ length output.old }
        ensures rest { drop result.put output.new ≡ drop result.put output.old }
        ensures stands { (setup : Setup) (t o : List ℕ) → Stands setup self.old t o →
            Stands setup self.new (t ++ take result.taken input.now) (o ++ take result.put output.new) }
        ensures idle { self.new.pending ≡ [] }
        ensures running { self.new.stopped ≡ None }
        ensures memory { memory_held self.new ≡ memory_held self.old }
    {
        items_grow();
        self.machine.take_run(input, output)
    }

    /// Takes some bytes where nothing is pending, and puts out what they print, as far as there is room.
    fn take_some(&mut self, input: &[u8], output: &mut [u8]) -> Moved
        requires idle { self.old.pending ≡ [] }
        requires running { self.old.stopped ≡ None }
        requires some { 0 < length input.now }
        ensures some { 0 < result.taken }
        ensures taken { result.taken ≤ length input.now }
        ensures put { result.put ≤ length output.old }
        ensures rest { drop result.put output.new ≡ drop result.put output.old }
        ensures full { 0 < length self.new.pending → result.put ≡ length output.old }
        ensures stands { (setup : Setup) (t o : List ℕ) → Stands setup self.old t o →
            Stands setup self.new (t ++ take result.taken input.now) (o ++ take result.put output.new) }
        ensures memory { memory_held self.new ≡ memory_held self.old }
    {
        let run = self.take_run(input, output);
        if run.taken == input.len() {
            return run;
        }
        self.take(input[run.taken]);
        let put = self.put(&mut output[run.put..]);
        Moved {
            taken: run.taken + 1,
            put: run.put + put,
        }
    }

    /// Puts out what is pending, as far as there is room.
    fn put(&mut self, output: &mut [u8]) -> usize
        ensures count { result ≡ min (length self.old.pending) (length output.old) }
        ensures full { 0 < length self.new.pending → result ≡ length output.old }
        ensures rest { drop result output.new ≡ drop result output.old }
        ensures stands { (setup : Setup) (t o : List ℕ) → Stands setup self.old t o →
            Stands setup self.new t (o ++ take result output.new) }
        ensures stopped { self.new.stopped ≡ self.old.stopped }
        ensures none { IsSome self.old.stopped → result ≡ 0 }
        ensures text { self.old.pending ≡ take result output.new ++ self.new.pending }
        ensures memory { memory_held self.new ≡ memory_held self.old }
    {
        self.machine.put(output)
    }

    /// Whether anything is still to be put out.
    pub fn pending(&self) -> bool
        ensures { IsTrue result ↔ (0 < length self.now.pending) }
    {
        self.machine.pending()
    }

    /// The fault that stopped the printer.
    pub fn stopped(&self) -> Option<Fault>
        ensures value { result ≡ self.now.stopped }
        ensures idle { IsSome result → self.now.pending ≡ [] }
        ensures byte { MatchOption result Unit IsOfByte }
    {
        the_fault_tells_the_end();
        self.stopped
    }

    /// Takes input and puts out what it prints, until the input ends, the output is full or a fault comes.
    pub fn step(&mut self, input: &[u8], output: &mut [u8]) -> Step
        ensures taken { result.taken ≤ length input.now }
        ensures put { result.put ≤ length output.old }
        ensures rest { drop result.put output.new ≡ drop result.put output.old }
        ensures full { 0 < length self.new.pending → result.put ≡ length output.old }
        ensures drains { result.taken ≡ 0 →
            self.old.pending ≡ take result.put output.new ++ self.new.pending }
        ensures moves { 0 < length input.now → self.old.pending ≡ [] → self.old.stopped ≡ None →
            0 < result.taken }
        ensures stands { (setup : Setup) (t o : List ℕ) → Stands setup self.old t o →
            Stands setup self.new (t ++ take result.taken input.now) (o ++ take result.put output.new) }
        ensures more { result.state ≡ State.More → (setup : Setup) (t o : List ℕ) →
            Stands setup self.old t o →
            IsMore setup input.now result.taken (t ++ take result.taken input.now)
            (o ++ take result.put output.new) }
        ensures room { result.state ≡ State.Room → (setup : Setup) (t o : List ℕ) →
            Stands setup self.old t o →
            IsRoom setup output.new result.put (t ++ take result.taken input.now)
            (o ++ take result.put output.new) }
        ensures stopped { (f : Fault) (setup : Setup) (t o : List ℕ) → Stands setup self.old t o →
            (result.state ≡ State.Stopped f ↔
            (fault (rules_of setup) (t ++ take result.taken input.now) ≡ Some f)) }
        ensures stopped_at { (f : Fault) (setup : Setup) (t o : List ℕ) → Stands setup self.old t o →
            result.state ≡ State.Stopped f →
            IsStopped setup f (t ++ take result.taken input.now) (o ++ take result.put output.new) }
        ensures nothing_after { (f : Fault) → self.old.stopped ≡ Some f → IsStill f result }
        ensures idle { result.state ≡ State.More → self.new.pending ≡ [] }
        ensures waits { result.state ≡ State.Room → 0 < length self.new.pending }
        ensures byte { (f : Fault) → result.state ≡ State.Stopped f → IsOfByte f }
        ensures memory { memory_held self.new ≡ memory_held self.old }
    {
        let mut put = self.put(output);
        let mut taken = 0;
        while taken < input.len() && self.stopped().is_none() && !self.pending() {
            let moved = self.take_some(&input[taken..], &mut output[put..]);
            taken += moved.taken;
            put += moved.put;
        }
        let state = match self.stopped() {
            Some(fault) => State::Stopped(fault),
            None if self.pending() => State::Room,
            None => State::More,
        };
        Step { taken, put, state }
    }

    /// The fault of a printer that has stopped, or that of ending here.
    pub fn finish(&self) -> Result<(), Fault>
        requires { self.now.pending ≡ [] }
        ensures { (setup : Setup) (t o : List ℕ) → Stands setup self.now t o →
            MatchResult result (λ _. fault_at_end (rules_of setup) t ≡ None)
            (λ f. fault_at_end (rules_of setup) t ≡ Some f) }
    {
        items_grow();
        if let Some(fault) = self.stopped {
            return Err(fault);
        }
        match self.machine.ending() {
            Some(fault) => Err(fault),
            None => Ok(()),
        }
    }

    /// What the printer holds now.
    pub fn held(&self) -> Held
        ensures value { (setup : Setup) (t o : List ℕ) → Stands setup self.now t o →
            result ≡ held_after (rules_of setup) t o }
        ensures most { IsBounded result }
    {
        self.machine.held()
    }

    /// The bytes of memory that the printer holds, on the heap: those that it was made with.
    pub fn memory(&self) -> usize
        ensures value { result ≡ memory_held self.now }
        ensures made_with { (setup : Setup) (t o : List ℕ) → Stands setup self.now t o →
            result ≡ memory_of setup }
    {
        self.machine.memory()
    }

    /// What it tells of its work: of a receipt's page the rows of dots that the last item that ended a line
    /// laid and made white, of a label what painting took for the copy that was painted last, of a listing 0.
    pub fn work(&self) -> u64
        ensures value { result ≡ work_told self.now }
        ensures bounds { (setup : Setup) (t o : List ℕ) → Stands setup self.now t o →
            IsWorkAfter setup (history (rules_of setup) (before_fault (rules_of setup) t)) self.now.pending
            result }
    {
        self.machine.work()
    }

    /// How many lines of a listing there were; 0 where it prints no listing.
    pub(crate) fn lines(&self) -> u64
        ensures { (setup : Setup) (t o : List ℕ) → Stands setup self.now t o →
            result ≡ lines_of setup (history (rules_of setup) (before_fault (rules_of setup) t)) }
    {
        self.machine.lines()
    }
}
