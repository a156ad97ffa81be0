//! The bytes of a picture.

ghost use Rattle.std.specs.Prelude.{◌≡◌, ◌-◌, ◌+◌, ◌≤◌, ◌++◌, length, take, replicate, is_some, IfOk, Result, Ok, Err, OnOk, IfErr};
ghost use Rattle.vp_packed.specs.Base64.{bytes_of, values};
ghost use Rattle.vp_packed.specs.Texts.{kind_of, body_of};
ghost use Rattle.vp_packed.specs.Pictures.{filled_up, unzipped, shown, picture};
ghost use Rattle.vp_packed.specs.Kept.{spelled, Written};

use crate::check::{crc, said};
use crate::sign::Group;
use crate::spelling::spell;
use crate::text::{Packing, Refusal, are_fours, are_signs, kind, signs_before};
use vp_inflate::{Inflate, State};

/// How many bytes are unpacked at once.
const PIECE: usize = 192;

/// Whether a picture's data are packed.
pub fn is_packed(text: &[u8]) -> bool
    ensures { result ≡ is_some (kind_of text.now) }
{
    kind(text).is_some()
}

/// Makes white what is behind so many bytes.
fn whiten(out: &mut [u8], filled: usize)
    requires { filled ≤ length out.old }
    ensures { out.new ≡ take filled out.old ++ replicate (length out.old - filled) 0 }
{
    out[filled..].fill(0);
}

/// The bytes that signs spell.
fn plain(signs: &[u8], out: &mut [u8])
    ensures { out.new ≡ filled_up (length out.old) (bytes_of (values signs.now)) }
{
    let (filled, _, _) = spell(signs, 0, Group::new(), out);
    whiten(out, filled);
}

/// The bytes that zlib's format packs.
fn unzip(signs: &[u8], out: &mut [u8]) -> Result<(), Refusal>
    ensures { Written result out.new (unzipped (length out.old) (bytes_of (values signs.now))) }
{
    let mut inflate = Inflate::new();
    let mut piece = [0; PIECE];
    let mut n = 0;
    let mut group = Group::new();
    let mut at = 0;
    let mut filled = 0;
    loop {
        let step = inflate.step(&piece[..n], out, filled);
        filled = step.filled;
        if filled == out.len() {
            return Ok(());
        }
        match step.state {
            State::More => {
                (n, group, at) = spell(signs, at, group, &mut piece);
                if n == 0 {
                    return Err(Refusal::Short);
                }
            }
            State::Ended => {
                whiten(out, filled);
                return Ok(());
            }
            State::Broken(fault) => return Err(Refusal::Broken(fault)),
            State::Full => return Ok(()),
        }
    }
}

/// Unpacks a picture's data (ZPL II, ^GF): `out` is then the first bytes that they stand for, and white behind
/// the last of them. What they say behind `out`'s last byte isn't looked at. Where the text is refused, nothing
/// is said of `out`.
#[tactic(auto, unfolding(crate::specs::Pictures::picture))]
pub fn unpack(text: &[u8], out: &mut [u8]) -> Result<(), Refusal>
    ensures { Written result out.new (picture (length out.old) text.now) }
{
    let Some(kind) = kind(text) else {
        return Err(Refusal::Head);
    };
    let rest = &text[5..];
    let n = signs_before(rest);
    if n == rest.len() {
        return Err(Refusal::End);
    }
    let signs = &rest[..n];
    if said(&rest[n + 1..]) != Some(crc(signs)) {
        return Err(Refusal::Check);
    }
    if !are_signs(signs) {
        return Err(Refusal::Sign);
    }
    if !are_fours(signs) {
        return Err(Refusal::Padding);
    }
    match kind {
        Packing::Plain => {
            plain(signs, out);
            Ok(())
        }
        Packing::Zlib => unzip(signs, out),
    }
}
