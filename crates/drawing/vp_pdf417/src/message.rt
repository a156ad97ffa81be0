//! The message codewords of bytes.

ghost use Rattle.std.specs.Prelude.{◌≡◌, [], Some};
ghost use Rattle.vp_pdf417.specs.Messages.{segment, all_segments, message};
ghost use Rattle.vp_pdf417.specs.Written.{written};

use crate::byte::push_bytes;
use crate::mode::Mode;
use crate::numeric::push_numeric;
use crate::text::push_text;
use crate::words::Words;

/// Writes bytes in a compaction, behind its latch.
#[tactic(auto, unfolding(crate::specs::Messages::segment))]
fn push_segment(words: &mut Words, mode: Mode, src: &[u8])
    ensures { words.new ≡ written words.old (segment mode src.now) }
{
    match mode {
        Mode::Text => {
            words.push(900);
            push_text(words, src);
        }
        Mode::Bytes => push_bytes(words, src),
        Mode::Numeric => push_numeric(words, src),
    }
}

/// Writes bytes in segments.
fn push_segments(words: &mut Words, src: &[u8])
    ensures { words.new ≡ written words.old (all_segments src.now) }
{
    let mut left = src;
    while !left.is_empty() {
        let mode = Mode::at(left);
        let (front, rest) = left.split_at(mode.front(left));
        push_segment(words, mode, front);
        left = rest;
    }
}

/// The message codewords of bytes.
#[tactic(auto, unfolding(crate::specs::Messages::message))]
pub fn message(src: &[u8]) -> Words
    ensures { result ≡ written (Some []) (message src.now) }
{
    let mut words = Words::new();
    match Mode::at(src) {
        Mode::Text => {
            let (front, rest) = src.split_at(Mode::Text.front(src));
            push_text(&mut words, front);
            push_segments(&mut words, rest);
        }
        _ => push_segments(&mut words, src),
    }
    words
}
