//! The modes, and what stands before the text: a carrier's message, and which of several symbols one is.

ghost use Rattle.std.specs.Prelude.{◌≡◌, ◌<◌, ◌≤◌, true, slice_index, IfSome};
ghost use Rattle.std.specs.List.{list_all};
ghost use Rattle.vp_reed_solomon.specs.declared.field.Field.TheVariants.{Gf64};
ghost use Rattle.vp_reed_solomon.specs.Fields.{AreElements};
ghost use Rattle.vp_maxicode.specs.declared.set.CodeSet.TheVariants.{A};
ghost use Rattle.vp_maxicode.specs.Characters.{code};
ghost use Rattle.vp_maxicode.specs.Primaries.{is_letter, is_postal, is_three, postal_mode, postal_bits, carrier_bits, ten, room, is_part, part_words};
ghost use Rattle.vp_maxicode.specs.Codewords.{first_in, data_count};
ghost use Rattle.vp_maxicode.specs.Written.{written};

use crate::set::CodeSet;
use crate::words::Words;

/// A postal code.
#[derive(Clone, Copy, Debug, PartialEq, Eq)]
pub enum PostalCode {
    /// A number of one to nine digits, zeros in front of it counted.
    Numeric { number: u64, digits: u32 },
    /// Six characters of code set A, from a blank to `Z`.
    Alphanumeric([u8; 6]),
}

/// What the primary message of a structured carrier message says.
#[derive(Clone, Copy, Debug, PartialEq, Eq)]
pub struct Carrier {
    pub postal: PostalCode,
    /// The country (ISO 3166), 0 to 999.
    pub country: u32,
    /// The class of service, 0 to 999.
    pub service: u32,
}

/// A mode.
#[derive(Clone, Copy, Debug, PartialEq, Eq)]
pub enum Mode {
    /// 2 and 3: a structured carrier message, of which the bytes are the secondary message.
    Structured(Carrier),
    /// 4: a standard symbol.
    Standard,
    /// 5: a symbol with enhanced error correction.
    Enhanced,
    /// 6: a symbol that programs a reader.
    Program,
}

/// Which of two to eight symbols that are joined one is, the first being 1.
#[derive(Clone, Copy, Debug, PartialEq, Eq)]
pub struct Part {
    pub position: u16,
    pub of: u16,
}

/// Whether a postal code may have a character.
fn is_letter(byte: u8) -> bool
    ensures { result ≡ is_letter byte }
{
    byte >= 32 && byte <= 90 && CodeSet::A.has(byte)
}

/// Whether it may have all of these.
fn are_letters(letters: &[u8]) -> bool
    ensures { result ≡ list_all is_letter letters.now }
{
    letters.iter().all(|byte| is_letter(*byte))
}

impl PostalCode {
    /// Whether there is one.
    pub(crate) fn is_sound(self) -> bool
        ensures { result ≡ is_postal self }
    {
        match self {
            PostalCode::Numeric { number, digits } => {
                digits >= 1 && digits <= 9 && number < 10u64.pow(digits)
            }
            PostalCode::Alphanumeric(letters) => are_letters(&letters),
        }
    }

    /// The mode's number.
    fn mode(self) -> u16
        ensures mode { result ≡ postal_mode self }
        ensures small { result < 4 }
    {
        match self {
            PostalCode::Numeric { .. } => 2,
            PostalCode::Alphanumeric(_) => 3,
        }
    }

    /// The 36 bits of it.
    fn bits(self) -> u64
        requires { is_postal self ≡ true }
        ensures bits { result ≡ postal_bits self }
        ensures small { result < 68719476736 }
    {
        match self {
            PostalCode::Numeric { number, digits } => { number + 1_073_741_824 * u64::from(digits) }
            PostalCode::Alphanumeric(letters) => {
                let high = 64 * (64 * letter(letters, 0) + letter(letters, 1)) + letter(letters, 2);
                let low = 64 * (64 * letter(letters, 3) + letter(letters, 4)) + letter(letters, 5);
                262_144 * u64::from(high) + u64::from(low)
            }
        }
    }
}

/// The value of character `k` of a postal code.
fn letter(letters: [u8; 6], k: usize) -> u32
    requires { k < 6 }
    ensures letter { result ≡ code A (slice_index letters k) }
    ensures small { result < 64 }
{
    u32::from(CodeSet::A.code(letters[k]))
}

impl Carrier {
    /// The 60 bits of the primary message.
    #[tactic(auto, unfolding(crate::specs::Primaries::carrier_bits))]
    fn bits(self) -> u64
        requires postal { is_postal self.postal ≡ true }
        requires country { is_three self.country ≡ true }
        requires service { is_three self.service ≡ true }
        ensures { result ≡ carrier_bits self }
    {
        u64::from(self.postal.mode())
            + 16 * self.postal.bits()
            + 1_099_511_627_776 * u64::from(self.country)
            + 1_125_899_906_842_624 * u64::from(self.service)
    }

    /// The ten codewords of the primary message.
    pub(crate) fn words(self) -> [u16; 10]
        requires postal { is_postal self.postal ≡ true }
        requires country { is_three self.country ≡ true }
        requires service { is_three self.service ≡ true }
        ensures words { result ≡ ten (carrier_bits self) }
        ensures elements { AreElements Gf64 result }
    {
        let n = self.bits();
        [
            (n % 64) as u16,
            (n / 64 % 64) as u16,
            (n / 4096 % 64) as u16,
            (n / 262_144 % 64) as u16,
            (n / 16_777_216 % 64) as u16,
            (n / 1_073_741_824 % 64) as u16,
            (n / 68_719_476_736 % 64) as u16,
            (n / 4_398_046_511_104 % 64) as u16,
            (n / 281_474_976_710_656 % 64) as u16,
            (n / 18_014_398_509_481_984 % 64) as u16,
        ]
    }
}

impl Mode {
    /// How many data codewords there are for the text.
    pub(crate) fn room(self) -> usize
        ensures room { result ≡ room self }
        ensures most { result ≤ 93 }
    {
        match self {
            Mode::Structured(_) => 84,
            Mode::Standard | Mode::Program => 93,
            Mode::Enhanced => 77,
        }
    }

    /// How many of them are in the primary message.
    pub(crate) fn first(self) -> usize
        ensures first { result ≡ first_in self }
        ensures most { result ≤ 9 }
    {
        match self {
            Mode::Structured(_) => 0,
            Mode::Standard | Mode::Enhanced | Mode::Program => 9,
        }
    }

    /// The data codewords of a block of the secondary message, which has 62 codewords.
    pub(crate) fn data(self) -> usize
        ensures data { result ≡ data_count self }
        ensures most { result ≤ 42 }
    {
        match self {
            Mode::Structured(_) | Mode::Standard | Mode::Program => 42,
            Mode::Enhanced => 34,
        }
    }
}

impl Part {
    /// Whether there is one.
    pub(crate) fn is_sound(self) -> bool
        ensures { result ≡ is_part self }
    {
        self.position >= 1 && self.position <= self.of && self.of >= 2 && self.of <= 8
    }
}

/// Writes what says that a symbol is one of several.
pub fn push_part(words: &mut Words, part: Option<Part>)
    requires { IfSome part (λ part. is_part part ≡ true) }
    ensures { words.new ≡ written words.old (part_words part) }
{
    if let Some(part) = part {
        words.push(33);
        words.push(8 * part.position.saturating_sub(1) + part.of.saturating_sub(1));
    }
}
