//! The data codewords of bytes: what leads them, and the scheme of the fewest.

ghost use Rattle.std.specs.Prelude.{◌≡◌, ℕ, true, ◌+◌, ◌*◌, ◌≤◌, ◌++◌, length};
ghost use Rattle.std.specs.List.{list_all};
ghost use Rattle.arrayvec.specs.ArrayVec.{array_vec_len};
ghost use Rattle.vp_data_matrix.specs.declared.message.Scheme.{Scheme};
ghost use Rattle.vp_data_matrix.specs.Messages.{lead_words, takes, encoded, better, scheme_of, message, message_in};
ghost use Rattle.vp_data_matrix.specs.Pads.{padded};
ghost use Rattle.vp_data_matrix.specs.Encoding.{may_follow};

use crate::ascii::{ascii_length, push_ascii};
use crate::base_256::{base_256_length, push_base_256};
use crate::edifact::{edifact_has_all, edifact_length, push_edifact};
use crate::pad::{Words, push_pads};
use crate::triple::Charset;
use arrayvec::ArrayVec;

/// What stands before the data.
#[derive(Clone, Copy, Debug, PartialEq, Eq)]
pub enum Lead {
    /// Nothing.
    Plain,
    /// FNC1: the data are GS1 element strings.
    Gs1,
    /// The macro that stands for the frame of format 05.
    Macro05,
    /// The macro that stands for the frame of format 06.
    Macro06,
}

/// How bytes become codewords.
#[derive(Clone, Copy)]
pub enum Scheme {
    Ascii,
    Triples(Charset),
    Edifact,
    Base256,
}

/// A scheme, and how many codewords bytes take in it.
#[derive(Clone, Copy)]
struct Choice {
    scheme: Scheme,
    length: u128,
}

impl Lead {
    /// How many codewords it takes.
    fn length(self) -> u128
        ensures length { result ≡ length (lead_words self) }
        ensures most { result ≤ 1 }
    {
        match self {
            Lead::Plain => 0,
            Lead::Gs1 | Lead::Macro05 | Lead::Macro06 => 1,
        }
    }

    /// Whether a byte may follow.
    fn may_follow(self, byte: u8) -> bool
        ensures { result ≡ may_follow self byte }
    {
        match self {
            Lead::Gs1 => byte.is_ascii(),
            Lead::Plain | Lead::Macro05 | Lead::Macro06 => true,
        }
    }

    /// Whether all these bytes may follow.
    pub(crate) fn may_follow_all(self, src: &[u8]) -> bool
        ensures { result ≡ list_all (may_follow self) src.now }
    {
        src.iter().all(|byte| self.may_follow(*byte))
    }

    /// Its codewords.
    fn words(self) -> Words
        ensures { result.items ≡ lead_words self }
    {
        let mut words = ArrayVec::new();
        match self {
            Lead::Plain => {}
            Lead::Gs1 => words.push(232),
            Lead::Macro05 => words.push(236),
            Lead::Macro06 => words.push(237),
        }
        words
    }
}

impl Scheme {
    /// Whether it has all these bytes.
    fn takes(self, src: &[u8]) -> bool
        ensures { result ≡ takes self src.now }
    {
        match self {
            Scheme::Ascii | Scheme::Base256 => true,
            Scheme::Triples(set) => set.has_all(src),
            Scheme::Edifact => edifact_has_all(src) && src.len() >= 2,
        }
    }

    /// How many codewords bytes take that fill a symbol.
    fn length(self, src: &[u8]) -> u128
        ensures length { (before : ℕ) → result ≡ length (encoded true self before src.now) }
        ensures most { result ≤ 6 + 6 * length src.now }
    {
        match self {
            Scheme::Ascii => ascii_length(src),
            Scheme::Triples(set) => set.length(src),
            Scheme::Edifact => edifact_length(src),
            Scheme::Base256 => base_256_length(src),
        }
    }

    /// Appends bytes that fill the symbol or don't.
    fn push(self, words: &mut Words, src: &[u8], full: bool)
        requires { array_vec_len words.old
            + length (encoded full self (array_vec_len words.old) src.now) ≤ 1558 }
        ensures { words.new.items
            ≡ words.old.items ++ encoded full self (array_vec_len words.old) src.now }
    {
        match self {
            Scheme::Ascii => push_ascii(words, src),
            Scheme::Triples(set) => set.push(words, src, full),
            Scheme::Edifact => push_edifact(words, src),
            Scheme::Base256 => push_base_256(words, src),
        }
    }
}

impl Choice {
    /// The better one of this and another scheme.
    #[tactic(auto, unfolding(crate::specs::Messages::better))]
    fn or(self, src: &[u8], other: Scheme) -> Choice
        requires length { self.length ≡ length (encoded true self.scheme 0 src.now) }
        requires most { self.length ≤ 6 + 6 * length src.now }
        ensures scheme { result.scheme ≡ better src.now self.scheme other }
        ensures length { result.length ≡ length (encoded true result.scheme 0 src.now) }
        ensures most { result.length ≤ 6 + 6 * length src.now }
    {
        if other.takes(src) {
            let length = other.length(src);
            if length < self.length {
                return Choice {
                    scheme: other,
                    length,
                };
            }
        }
        self
    }

    /// The scheme of the fewest codewords.
    fn of(src: &[u8]) -> Choice
        ensures scheme { result.scheme ≡ scheme_of src.now }
        ensures length { result.length ≡ length (encoded true result.scheme 0 src.now) }
        ensures fewest { (s : Scheme) → takes s src.now ≡ true
            → result.length ≤ length (encoded true s 0 src.now) }
        ensures most { result.length ≤ 6 + 6 * length src.now }
    {
        let ascii = Choice {
            scheme: Scheme::Ascii,
            length: ascii_length(src),
        };
        ascii
            .or(src, Scheme::Triples(Charset::C40))
            .or(src, Scheme::Triples(Charset::Text))
            .or(src, Scheme::Triples(Charset::X12))
            .or(src, Scheme::Edifact)
            .or(src, Scheme::Base256)
    }
}

/// How many codewords the bytes behind a lead take, where these fill a symbol.
pub fn message_length(lead: Lead, src: &[u8]) -> u128
    ensures { result ≡ length (message true lead src.now) }
{
    lead.length() + Choice::of(src).length
}

/// The codewords of bytes behind a lead, in a symbol that has so many.
#[tactic(auto, unfolding(crate::specs::Messages::message, crate::specs::Messages::message_in))]
fn message(lead: Lead, src: &[u8], capacity: usize) -> Words
    requires room { length (message true lead src.now) ≤ capacity }
    requires most { capacity ≤ 1558 }
    ensures words { result.items ≡ message_in capacity lead src.now }
    ensures room { array_vec_len result ≤ capacity }
{
    let choice = Choice::of(src);
    let full = lead.length() + choice.length == capacity as u128;
    let mut words = lead.words();
    choice.scheme.push(&mut words, src, full);
    words
}

/// The data codewords of bytes behind a lead, in a symbol that has so many.
pub fn data_words(lead: Lead, src: &[u8], capacity: usize) -> Words
    requires room { length (message true lead src.now) ≤ capacity }
    requires most { capacity ≤ 1558 }
    ensures words { result.items ≡ padded capacity (message_in capacity lead src.now) }
    ensures count { array_vec_len result ≡ capacity }
{
    let mut words = message(lead, src, capacity);
    push_pads(&mut words, capacity);
    words
}
