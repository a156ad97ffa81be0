//! What a stream asks, cut into pieces.
use std::process::Abort;
use vp_language::Language;
use vp_requests::{Ask, Request, Requests};

/// What is asked, with which arguments, and from where to where.
pub type Want = (Ask, &'static [u8], u64, u64);

/// Bytes, and what they ask.
pub type Row = (&'static [u8], &'static [Want]);

/// Whether a request is the one at this place in what is wanted.
fn is_wanted(request: &Request, wants: &[Want], at: usize) -> bool {
    if at >= wants.len() {
        return false;
    }
    let (ask, arguments, start, end) = wants[at];
    request.ask == ask
        && request.arguments.as_slice() == arguments
        && request.start == start
        && request.end == end
}

/// Takes a piece, and tells how many requests were known behind it, or none where one isn't wanted.
fn take(requests: &mut Requests, piece: &[u8], wants: &[Want], known: usize) -> Option<usize> {
    let mut rest = piece;
    let mut count = known;
    for _ in 0..1000 {
        let found = requests.next(rest);
        rest = &rest[found.taken..];
        let Some(request) = found.request else {
            return Some(count);
        };
        if !is_wanted(&request, wants, count) {
            return None;
        }
        count = count.saturating_add(1);
    }
    None
}

/// Whether bytes ask this, in pieces of so many bytes.
fn asks(language: Language, bytes: &[u8], size: usize, wants: &[Want]) -> bool {
    let mut requests = Requests::new(language);
    let mut count = 0;
    for piece in bytes.chunks(size.max(1)) {
        match take(&mut requests, piece, wants, count) {
            Some(known) => count = known,
            None => return false,
        }
    }
    if let Some(request) = requests.finish() {
        if !is_wanted(&request, wants, count) {
            return false;
        }
        count = count.saturating_add(1);
    }
    count == wants.len()
}

/// Each row asks what it should, whole and in pieces; the number of the first one that doesn't is told.
pub fn each_asks(rt: &impl Abort, language: Language, rows: &[Row]) {
    let mut wrong = None;
    for i in 0..rows.len() {
        let (bytes, wants) = rows[i];
        for size in [1, 2, 3, 7, 4096] {
            if !asks(language, bytes, size, wants) {
                wrong = Some((i, size));
            }
        }
    }
    assert_eq!(rt; wrong, None);
}
