//! A line of a listing: a word, and bytes in hex.
ghost use Rattle.std.specs.Prelude.{◌≡◌, ◌≤◌, ◌<◌, ◌+◌, ◌*◌, ◌++◌, length};
ghost use Rattle.vp_dots.specs.Listing.{hex_bytes, listed};

use arrayvec::ArrayVec;

/// Appends a blank and two lower-case hex digits for each byte.
pub fn spell<const N: usize>(line: &mut ArrayVec<u8, N>, bytes: &[u8])
    requires { length line.old.items + 3 * length bytes.now ≤ N }
    ensures value { line.new.items ≡ line.old.items ++ hex_bytes bytes.now }
    ensures len { length line.new.items ≡ length line.old.items + 3 * length bytes.now }
{
    for byte in bytes {
        let mut digits = [0; 2];
        let _written = hex::encode_to_slice(&[*byte], &mut digits);
        line.push(b' ');
        line.push(digits[0]);
        line.push(digits[1]);
    }
}

/// Appends a line of a word and bytes, with its LF.
#[tactic(auto, unfolding(crate::specs::Listing::listed))]
pub fn list<const N: usize>(line: &mut ArrayVec<u8, N>, word: &[u8], bytes: &[u8])
    requires { length line.old.items + length word.now + 3 * length bytes.now < N }
    ensures value { line.new.items ≡ line.old.items ++ listed word.now bytes.now }
    ensures len { length line.new.items ≡ length line.old.items + length word.now + 3 * length bytes.now + 1 }
{
    let _fits = line.try_extend_from_slice(word);
    spell(line, bytes);
    line.push(b'\n');
}
