//! The bytes that signs spell, as many as there is room for.

ghost use Rattle.std.specs.Prelude.{◌≡◌, ◌+◌, ◌<◌, ◌≤◌, ◌++◌, [], length, take, drop};
ghost use Rattle.vp_packed.specs.Kept.{spelled};

use crate::sign::Group;

/// Writes the bytes that signs spell from a place on, in a group: how many there is room for, and the group and
/// the place behind them.
pub fn spell(signs: &[u8], from: usize, first: Group, out: &mut [u8]) -> (usize, Group, usize)
    requires { from ≤ length signs.now }
    ensures within { result.0 ≤ length out.old }
    ensures len { length out.new ≡ length out.old }
    ensures bytes { spelled first (drop from signs.now)
        ≡ take result.0 out.new ++ spelled result.1 (drop result.2 signs.now) }
    ensures all { result.0 < length out.old → spelled result.1 (drop result.2 signs.now) ≡ [] }
    ensures on { from + result.0 ≤ result.2 }
    ensures place { result.2 ≤ length signs.now }
{
    let mut group = first;
    let mut at = from;
    let mut n = 0;
    while at < signs.len() && n < out.len() {
        let sign = signs[at];
        if sign == b'=' {
            return (n, group, signs.len());
        }
        at += 1;
        if let Some(byte) = group.read(sign) {
            out[n] = byte;
            n += 1;
        }
    }
    (n, group, at)
}
