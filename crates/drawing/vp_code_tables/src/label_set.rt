//! The national sets of labels (ZPL II, ^CI 0 to 13).
//!
//! Each row has the code points at 23, 24, 40, 5B, 5C, 5D, 5E, 60, 7B, 7C, 7D and 7E.

ghost use Rattle.std.specs.Prelude.{◌≡◌, ◌<◌, slice_index};
ghost use Rattle.vp_code_tables.specs.Sets.{label_row};

const USA_ONE: [u16; 12] = [
    0x23, 0x24, 0x40, 0x5b, 0xa2, 0x5d, 0x5e, 0x60, 0x7b, 0x7c, 0x7d, 0x7e,
];

const USA_TWO: [u16; 12] = [
    0x23, 0x24, 0x40, 0x2153, 0xa2, 0x2154, 0x5e, 0x60, 0xbc, 0xbd, 0xbe, 0x7e,
];

const UNITED_KINGDOM: [u16; 12] = [
    0xa3, 0x24, 0x40, 0x5b, 0xa2, 0x5d, 0x5e, 0x60, 0x7b, 0x7c, 0x7d, 0x7e,
];

const HOLLAND: [u16; 12] = [
    0x192, 0x24, 0xa7, 0x5b, 0x132, 0x5d, 0x5e, 0x60, 0x7b, 0x133, 0x7d, 0x7e,
];

const DENMARK: [u16; 12] = [
    0x23, 0x24, 0x40, 0xc6, 0xd8, 0xc5, 0x5e, 0x60, 0xe6, 0xf8, 0xe5, 0x7e,
];

const SWEDEN: [u16; 12] = [
    0xdc, 0x24, 0xc9, 0xc4, 0xd6, 0xc5, 0xdc, 0xe9, 0xe4, 0xf6, 0xe5, 0xfc,
];

const GERMANY: [u16; 12] = [
    0x23, 0x24, 0xa7, 0xc4, 0xd6, 0xdc, 0x5e, 0x60, 0xe4, 0xf6, 0xfc, 0xdf,
];

const FRANCE_ONE: [u16; 12] = [
    0xa3, 0x24, 0xe0, 0x5b, 0xe7, 0x5d, 0x5e, 0x60, 0xe9, 0xf9, 0xe8, 0xa8,
];

const FRANCE_TWO: [u16; 12] = [
    0x23, 0x24, 0xe0, 0xe2, 0xe7, 0xea, 0xee, 0xf4, 0xe9, 0xf9, 0xe8, 0xfb,
];

const ITALY: [u16; 12] = [
    0xa3, 0x24, 0xa7, 0x5b, 0xe7, 0xe9, 0x5e, 0xf9, 0xe0, 0xf2, 0xe8, 0xec,
];

const SPAIN: [u16; 12] = [
    0x23, 0x24, 0xa7, 0xa1, 0xd1, 0xbf, 0x5e, 0x60, 0x7b, 0xf1, 0xe7, 0x7e,
];

const MISCELLANEOUS: [u16; 12] = [
    0xa3, 0x24, 0xc9, 0xc4, 0xd6, 0xdc, 0x5e, 0xe4, 0xeb, 0xef, 0xf6, 0xfc,
];

const JAPAN: [u16; 12] = [
    0x23, 0x24, 0x40, 0x5b, 0xa5, 0x5d, 0x5e, 0x60, 0x7b, 0x7c, 0x7d, 0x7e,
];

const PLAIN: [u16; 12] = [
    0x23, 0x24, 0x40, 0x5b, 0x5c, 0x5d, 0x5e, 0x60, 0x7b, 0x7c, 0x7d, 0x7e,
];

/// A label's set, in the order of ^CI's numbers from 0 on.
#[derive(Clone, Copy, Debug, PartialEq, Eq)]
pub enum LabelSet {
    /// USA 1.
    UsaOne,
    /// USA 2.
    UsaTwo,
    /// United Kingdom.
    UnitedKingdom,
    /// Holland.
    Holland,
    /// Denmark and Norway.
    Denmark,
    /// Sweden and Finland.
    Sweden,
    /// Germany.
    Germany,
    /// France 1.
    FranceOne,
    /// France 2.
    FranceTwo,
    /// Italy.
    Italy,
    /// Spain.
    Spain,
    /// Miscellaneous.
    Miscellaneous,
    /// Japan.
    Japan,
    /// Code page 850 as it is.
    Plain,
}

impl LabelSet {
    /// The code point at a place of the row.
    #[tactic(auto, unfolding(crate::specs::Sets::label_row))]
    pub fn code(self, place: usize) -> u16
        requires { place < 12 }
        ensures { result ≡ slice_index (label_row self) place }
    {
        match self {
            LabelSet::UsaOne => USA_ONE[place],
            LabelSet::UsaTwo => USA_TWO[place],
            LabelSet::UnitedKingdom => UNITED_KINGDOM[place],
            LabelSet::Holland => HOLLAND[place],
            LabelSet::Denmark => DENMARK[place],
            LabelSet::Sweden => SWEDEN[place],
            LabelSet::Germany => GERMANY[place],
            LabelSet::FranceOne => FRANCE_ONE[place],
            LabelSet::FranceTwo => FRANCE_TWO[place],
            LabelSet::Italy => ITALY[place],
            LabelSet::Spain => SPAIN[place],
            LabelSet::Miscellaneous => MISCELLANEOUS[place],
            LabelSet::Japan => JAPAN[place],
            LabelSet::Plain => PLAIN[place],
        }
    }
}
