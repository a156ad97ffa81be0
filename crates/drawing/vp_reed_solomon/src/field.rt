//! The fields of codewords.

ghost use Rattle.std.specs.Prelude.{◌≡◌, ◌<◌, ◌≤◌, ◌^◌};
ghost use Rattle.vp_reed_solomon.specs.Fields.{order, degree, polynomial, sum, difference, doubled, times_bits, times, primitive};

/// A field of codewords, and the primitive polynomial that it is taken modulo.
#[derive(Clone, Copy, Debug, PartialEq, Eq)]
pub enum Field {
    /// 16 elements, modulo x^4 + x + 1: the mode message of Aztec.
    Gf16,
    /// 64 elements, modulo x^6 + x + 1: MaxiCode and small Aztec symbols.
    Gf64,
    /// 256 elements, modulo x^8 + x^5 + x^3 + x^2 + 1: Data Matrix and Aztec.
    Gf256,
    /// 256 elements, modulo x^8 + x^4 + x^3 + x^2 + 1: QR.
    Gf256Qr,
    /// 1,024 elements, modulo x^10 + x^3 + 1: Aztec.
    Gf1024,
    /// 4,096 elements, modulo x^12 + x^6 + x^5 + x^3 + 1: Aztec.
    Gf4096,
    /// The integers modulo 929: PDF417.
    Gf929,
}

impl Field {
    /// How many elements there are: they are the numbers below.
    pub fn order(self) -> u16
        ensures order { result ≡ order self }
        ensures most { result ≤ 4096 }
    {
        match self {
            Field::Gf16 => 16,
            Field::Gf64 => 64,
            Field::Gf256 | Field::Gf256Qr => 256,
            Field::Gf1024 => 1024,
            Field::Gf4096 => 4096,
            Field::Gf929 => 929,
        }
    }

    /// The bits of an element of a field of polynomials.
    fn degree(self) -> u32
        ensures { result ≡ degree self }
    {
        match self {
            Field::Gf16 => 4,
            Field::Gf64 => 6,
            Field::Gf256 | Field::Gf256Qr => 8,
            Field::Gf1024 => 10,
            Field::Gf4096 => 12,
            Field::Gf929 => 0,
        }
    }

    /// The primitive polynomial, a bit to each coefficient.
    fn polynomial(self) -> u16
        ensures polynomial { result ≡ polynomial self }
        ensures most { result < 2 ^ 13 }
    {
        match self {
            Field::Gf16 => 0x13,
            Field::Gf64 => 0x43,
            Field::Gf256 => 0x12d,
            Field::Gf256Qr => 0x11d,
            Field::Gf1024 => 0x409,
            Field::Gf4096 => 0x1069,
            Field::Gf929 => 0,
        }
    }

    /// The primitive element.
    pub(crate) fn primitive(self) -> u16
        ensures primitive { result ≡ primitive self }
        ensures element { result < order self }
    {
        match self {
            Field::Gf929 => 3,
            _ => 2,
        }
    }

    /// The sum of two elements.
    #[tactic(auto, using(crate::proofs::FieldLaws::elements))]
    pub(crate) fn sum(self, a: u16, b: u16) -> u16
        requires a { a < order self }
        requires b { b < order self }
        ensures sum { result ≡ sum self a b }
        ensures element { result < order self }
    {
        match self {
            Field::Gf929 => (a + b) % 929,
            _ => a ^ b,
        }
    }

    /// The difference of two elements.
    #[tactic(auto, using(crate::proofs::FieldLaws::elements))]
    pub(crate) fn difference(self, a: u16, b: u16) -> u16
        requires a { a < order self }
        requires b { b < order self }
        ensures difference { result ≡ difference self a b }
        ensures element { result < order self }
    {
        match self {
            Field::Gf929 => (a + (929 - b)) % 929,
            _ => a ^ b,
        }
    }

    /// x times an element of a field of polynomials.
    #[tactic(auto, using(crate::proofs::FieldLaws::doublings))]
    fn doubled(self, a: u16) -> u16
        requires { a < 2 ^ degree self }
        ensures doubled { result ≡ doubled self a }
        ensures element { result < 2 ^ degree self }
    {
        let twice = 2 * a;
        if twice < self.order() {
            twice
        } else {
            twice ^ self.polynomial()
        }
    }

    /// The product in a field of polynomials.
    #[tactic(auto, using(crate::proofs::FieldLaws::products))]
    fn product_by_bits(self, a: u16, b: u16) -> u16
        requires { a < 2 ^ degree self }
        ensures product { result ≡ times_bits self (degree self) a b }
        ensures element { result < 2 ^ degree self }
    {
        let mut sum = 0;
        let mut term = a;
        let mut bits = b;
        for _ in 0..self.degree() {
            sum ^= bits % 2 * term;
            term = self.doubled(term);
            bits /= 2;
        }
        sum
    }

    /// The product of two elements.
    #[tactic(auto, unfolding(crate::specs::Fields::times))]
    pub(crate) fn product(self, a: u16, b: u16) -> u16
        requires a { a < order self }
        requires b { b < order self }
        ensures product { result ≡ times self a b }
        ensures element { result < order self }
    {
        match self {
            Field::Gf929 => (u32::from(a) * u32::from(b) % 929) as u16,
            _ => self.product_by_bits(a, b),
        }
    }
}
