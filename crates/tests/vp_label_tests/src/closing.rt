//! Fields that streams close, as they are kept, and why they are refused.
ghost use Rattle.std.specs.Prelude.{None};
ghost use Rattle.vp_label.specs.Gathered.{IsGathered};

mod contents;
mod places;
mod refusals;
mod symbols;
mod texts;

use crate::sheets::NONE;
use std::alloc::{AllocError, Global};
use std::process::Abort;
use vp_dots::Fault;
use vp_format::{Content, Field, Span};
use vp_label::Gathered;
use vp_zpl::{Reading, ZplItem, ZplReader};

/// The first stored byte.
const ONE: Span = Span { start: 0, len: 1 };

/// Takes an item: why it is refused, where it is.
fn take(gathered: &mut Gathered, item: ZplItem) -> Option<Fault>
    requires { IsGathered (record { a = None; b = None }) gathered.old }
    ensures { IsGathered (record { a = None; b = None }) gathered.new }
{
    match item {
        ZplItem::Data(bytes) => match gathered.store(bytes.as_slice()) {
            Ok(()) => None,
            Err(fault) => Some(fault),
        },
        ZplItem::Command(sent) => match gathered.obey(sent.command, &NONE) {
            Ok(_) => None,
            Err(fault) => Some(fault),
        },
    }
}

/// What is gathered behind a stream, and why an item of it is refused, the last one that is.
fn behind(alloc: Global, stream: &[u8]) -> Result<(Gathered, Option<Fault>), AllocError> {
    let mut reader = ZplReader::new(Reading::Profile);
    let mut gathered = Gathered::new(alloc)?;
    let mut refused = None;
    for byte in stream {
        if let Some(item) = reader.take(*byte) {
            if let Some(fault) = take(&mut gathered, item) {
                refused = Some(fault);
            }
        }
    }
    Ok((gathered, refused))
}

/// How many fields a stream closes, the last one, and why an item is refused.
fn closed(
    alloc: Global,
    stream: &[u8],
) -> Result<(usize, Option<Field>, Option<Fault>), AllocError> {
    let (mut gathered, refused) = behind(alloc, stream)?;
    let count = gathered.format.len();
    if count == 0 {
        return Ok((0, None, refused));
    }
    let field = gathered.format.fields.field(count - 1);
    let last = Field {
        left: field.left,
        top: field.top,
        rows: field.rows,
        orientation: field.orientation,
        op: field.op,
        content: field.content,
    };
    Ok((count, Some(last), refused))
}

/// The last field that a stream closes, of which no item is refused.
fn last(alloc: Global, stream: &[u8]) -> Result<Option<Field>, AllocError> {
    match closed(alloc, stream)? {
        (_, field, None) => Ok(field),
        _ => Ok(None),
    }
}

/// A stream closes a field of this content last.
fn closes(
    rt: &impl Abort,
    alloc: Global,
    stream: &[u8],
    want: Option<Content>,
) -> Result<(), AllocError> {
    let found = match last(alloc, stream)? {
        Some(field) => Some(field.content),
        None => None,
    };
    assert!(rt; found == want, "{stream:?}");
    Ok(())
}
