//! The commands of a label, byte by byte.
ghost use Rattle.std.specs.Prelude.{◌≡◌, ◌≤◌, ◌<◌, ◌++◌, ◌∷◌, [], ℕ, List, None, Some, length, take};
ghost use Rattle.std.specs.Prelude.{option_to_list};
ghost use Rattle.vp_requests.specs.Labels.{label_request};
ghost use Rattle.vp_requests.specs.Requests.{label_requests};
ghost use Rattle.vp_requests.specs.Standing.{LabelsStand, LabelsTold, kept_full, kept_short, Divides, GoesOn};

use crate::kept::keep;
use crate::name::{ask_of, ends_data, is_line_end, most_arguments};
use crate::request::{Found, Request};
use arrayvec::ArrayVec;
use vp_zpl::{Reading, ZplReader};

/// How many bytes a name has.
const NAME: usize = 3;

/// How many bytes of a command are kept: one more than a name and the most arguments.
const KEPT: usize = 1028;

/// The command that stands open, as far as its bytes are kept, and how many bytes were taken.
#[derive(Drop)]
pub struct Labels {
    reader: ZplReader,
    bytes: ArrayVec<u8, KEPT>,
    start: u64,
    taken: u64,
}

impl Labels {
    /// No bytes yet.
    pub fn new() -> Self
        ensures { LabelsTold result [] [] }
    {
        Labels {
            reader: ZplReader::new(Reading::Profile),
            bytes: ArrayVec::new(),
            start: 0,
            taken: 0,
        }
    }

    /// The request of the open command, where it has all its arguments.
    fn full(&self) -> Option<Request>
        ensures { option_to_list result ≡ kept_full self.now }
    {
        let command = self.bytes.as_slice();
        let ask = ask_of(command)?;
        if command.len() != NAME + most_arguments(ask) {
            return None;
        }
        Some(Request::of(ask, NAME, command, self.start, self.taken))
    }

    /// The request of the open command, where it has fewer.
    pub fn short(&self) -> Option<Request>
        ensures { option_to_list result ≡ kept_short self.now }
    {
        let command = self.bytes.as_slice();
        let ask = ask_of(command)?;
        if command.len() >= NAME + most_arguments(ask) {
            return None;
        }
        Some(Request::of(ask, NAME, command, self.start, self.taken))
    }

    /// A sign or the end of a line, which the reader has taken and which is no data.
    fn between(&mut self, byte: u8) -> Option<Request>
        ensures { Divides self.old byte (option_to_list result) self.new }
    {
        if is_line_end(byte) {
            self.taken = self.taken.saturating_add(1);
            return None;
        }
        let request = self.short();
        self.bytes.clear();
        self.bytes.push(byte);
        self.start = self.taken;
        self.taken = self.taken.saturating_add(1);
        request
    }

    /// A byte that the reader has taken, and that goes on with the open command.
    fn go_on(&mut self, byte: u8) -> Option<Request>
        ensures { GoesOn self.old byte (option_to_list result) self.new }
    {
        if !self.bytes.is_empty() {
            keep(&mut self.bytes, byte);
        }
        self.taken = self.taken.saturating_add(1);
        self.full()
    }

    /// Takes the next byte, and gives what it asks.
    fn take(&mut self, byte: u8) -> Option<Request>
        ensures { (before : List ℕ) → LabelsStand self.old before →
            LabelsStand self.new (before ++ byte ∷ [])
            × (option_to_list result ≡ label_request before byte) }
    {
        if ends_data(byte) {
            // it is taken as data where binary data are wanted
            if self.reader.take_data(&[byte]) > 0 {
                return self.go_on(byte);
            }
            let _item = self.reader.take(byte);
            return self.between(byte);
        }
        let _item = self.reader.take(byte);
        self.go_on(byte)
    }

    /// Takes bytes up to the next request.
    pub fn next(&mut self, input: &[u8]) -> Found
        ensures fits { result.taken ≤ length input.now }
        ensures told { (bytes : List ℕ) (told : List Request) → LabelsTold self.old bytes told →
            LabelsTold self.new (bytes ++ take result.taken input.now)
            (told ++ option_to_list result.request) }
        ensures at_its_byte { (bytes : List ℕ) (told : List Request) (n : ℕ) →
            LabelsTold self.old bytes told → n < result.taken →
            label_requests (bytes ++ take n input.now) ≡ told }
        ensures all { result.request ≡ None → result.taken ≡ length input.now }
    {
        for i in 0..input.len() {
            let request = self.take(input[i]);
            if request.is_some() {
                return Found {
                    taken: i + 1,
                    request,
                };
            }
        }
        Found {
            taken: input.len(),
            request: None,
        }
    }
}
