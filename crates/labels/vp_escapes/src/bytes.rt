//! The bytes of the symbol, token by token.

ghost use Rattle.std.specs.Prelude.{◌≡◌, ◌<◌, ◌↔◌, length, IsNone, IfSome};
ghost use Rattle.vp_escapes.specs.Escapes.{read};

use crate::token::Token;
use arrayvec::ArrayVec;

/// The most digits that a Data Matrix symbol holds.
pub const MOST: usize = 3116;

/// What data stand for.
#[derive(Drop)]
pub struct Unescaped {
    /// Whether the data begin with FNC1: the bytes are GS1 element strings.
    pub gs1: bool,
    /// The bytes of the symbol, without this FNC1.
    pub bytes: ArrayVec<u8, MOST>,
}

impl Unescaped {
    /// What the bytes behind the front stand for, where they are at most `MOST`.
    pub fn read(sign: u8, gs1: bool, src: &[u8]) -> Option<Unescaped>
        ensures refused { IsNone result ↔ (MOST < length (read sign 0 src.now)) }
        ensures gs1 { IfSome result (λ u. u.gs1 ≡ gs1) }
        ensures bytes { IfSome result (λ u. u.bytes.items ≡ read sign 0 src.now) }
    {
        let mut bytes = ArrayVec::new();
        let mut left = src;
        while let [first, behind @ ..] = left {
            let token = Token::of(sign, *first, behind);
            if bytes.try_push(token.byte).is_err() {
                return None;
            }
            left = &behind[token.behind..];
        }
        Some(Unescaped { gs1, bytes })
    }
}
