//! The requests of a stream.
ghost use Rattle.std.specs.Prelude.{◌≡◌, ◌≤◌, ◌<◌, ◌++◌, [], ℕ, List, None, length, take, option_to_list};
ghost use Rattle.vp_requests.specs.Requests.{requests, last_requests};
ghost use Rattle.vp_requests.specs.Standing.{Told, IsFront};

use crate::labels::Labels;
use crate::receipts::Receipts;
use crate::request::{Found, Request};
use vp_language::Language;

/// What reads each language.
#[derive(Drop)]
enum Machine {
    Receipt(Receipts),
    Label(Labels),
}

/// The requests of a stream, each as soon as it is known.
#[derive(Drop)]
pub struct Requests {
    machine: Machine,
}

#[tactic(auto, unfolding(crate::specs::Standing::Told))]
impl Requests {
    /// Those of no bytes yet.
    pub fn new(language: Language) -> Self
        ensures { Told language result [] [] }
    {
        let machine = match language {
            Language::Label | Language::WholeLabel => Machine::Label(Labels::new()),
            _ => Machine::Receipt(Receipts::new()),
        };
        Requests { machine }
    }

    /// Takes bytes up to the one that makes the next request known, and gives that; where one byte makes two
    /// known, the next call takes none and gives the second. Where none is given all bytes are taken, and
    /// more are wanted.
    pub fn next(&mut self, input: &[u8]) -> Found
        ensures fits { result.taken ≤ length input.now }
        ensures told { (language : Language) (bytes : List ℕ) (told : List Request) →
            Told language self.old bytes told →
            Told language self.new (bytes ++ take result.taken input.now)
            (told ++ option_to_list result.request) }
        ensures first { (language : Language) (bytes : List ℕ) (told : List Request) →
            Told language self.old bytes told →
            IsFront (told ++ option_to_list result.request)
            (requests language (bytes ++ take result.taken input.now)) }
        ensures at_its_byte { (language : Language) (bytes : List ℕ) (told : List Request) (n : ℕ) →
            Told language self.old bytes told → n < result.taken →
            requests language (bytes ++ take n input.now) ≡ told }
        ensures all_taken { result.request ≡ None → result.taken ≡ length input.now }
        ensures all_told { result.request ≡ None →
            (language : Language) (bytes : List ℕ) (told : List Request) →
            Told language self.old bytes told → requests language (bytes ++ input.now) ≡ told }
    {
        match &mut self.machine {
            Machine::Receipt(receipts) => receipts.next(input),
            Machine::Label(labels) => labels.next(input),
        }
    }

    /// What the end of the stream asks: a label's last request, where its arguments could have gone on. It
    /// comes behind all that `next` gives.
    pub fn finish(&self) -> Option<Request>
        ensures { (language : Language) (bytes : List ℕ) (told : List Request) →
            Told language self.now bytes told → option_to_list result ≡ last_requests language bytes }
    {
        match &self.machine {
            Machine::Receipt(_) => None,
            Machine::Label(labels) => labels.short(),
        }
    }
}
