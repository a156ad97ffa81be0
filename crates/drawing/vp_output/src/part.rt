//! Bytes of a line of an image, put out as far as there is room.
ghost use Rattle.std.specs.Prelude.{◌≡◌, ◌-◌, ◌≤◌, ◌++◌, min, take, drop, length};
ghost use Rattle.vp_output.specs.Lines.{Lined, line_text, IsLineOf};
ghost use Rattle.vp_output.specs.Places.{advanced, pending, pending_if};

use crate::place::Place;

/// What was put out of a line: how many bytes, and where the next one is, if the image has more.
#[derive(Clone, Copy)]
pub struct Output {
    pub count: usize,
    pub next: Option<Place>,
}

/// Copies what there is room for of the line from a byte on, and answers how much.
fn copy_from(line: &[u8], byte: usize, out: &mut [u8]) -> usize
    requires { byte ≤ length line.now }
    ensures count { result ≡ min (length line.now - byte) (length out.old) }
    ensures bytes { out.new ≡ take result (drop byte line.now) ++ drop result out.old }
{
    let rest = &line[byte..];
    let n = rest.len().min(out.len());
    out[..n].copy_from_slice(&rest[..n]);
    n
}

/// Puts out the next bytes of the place's line, as many as there are and room is for, in an image of `rows`
/// rows. Whatever image has the line, they are its.
pub fn put_part(place: Place, line: &[u8], rows: u32, out: &mut [u8]) -> Output
    requires line { IsLineOf rows place.line }
    requires within { place.byte ≤ length line.now }
    ensures count { result.count ≡ min (length line.now - place.byte) (length out.old) }
    ensures next { result.next ≡ advanced rows (length line.now) result.count place }
    ensures bytes { (t : Lined) → line.now ≡ line_text t place.line →
        out.new ≡ take result.count (pending t place) ++ drop result.count out.old }
    ensures within { (t : Lined) → length line.now ≡ length (line_text t place.line) →
        result.count ≤ length (pending t place) }
    ensures rest { (t : Lined) → t.rows ≡ rows → length line.now ≡ length (line_text t place.line) →
        pending_if t result.next ≡ drop result.count (pending t place) }
{
    let count = copy_from(line, place.byte, out);
    Output {
        count,
        next: place.advanced(count, line.len(), rows),
    }
}
