//! The levels of error correction, and how each version's codewords stand in blocks.

ghost use Rattle.std.specs.Prelude.{◌≡◌, ◌≤◌};
ghost use Rattle.vp_qr.specs.Blocks.{in_table, table, blocks_of, IsSound, codewords_of, total};

/// How much of a symbol may be lost (ISO/IEC 18004, error correction levels).
#[derive(Clone, Copy, Debug, PartialEq, Eq)]
pub enum Level {
    /// About 7 percent.
    L,
    /// About 15 percent.
    M,
    /// About 25 percent.
    Q,
    /// About 30 percent.
    H,
}

/// The blocks of a symbol.
#[derive(Clone, Copy)]
pub struct Blocks {
    /// Check codewords of each block.
    pub check: usize,
    /// Short blocks.
    pub short: usize,
    /// Data codewords of a short block.
    pub words: usize,
    /// Blocks with one data codeword more.
    pub long: usize,
}

/// Check codewords, short blocks, their data codewords and long blocks of a version.
type Row = (usize, usize, usize, usize);

const LOW: [Row; 10] = [
    (7, 1, 19, 0),
    (10, 1, 34, 0),
    (15, 1, 55, 0),
    (20, 1, 80, 0),
    (26, 1, 108, 0),
    (18, 2, 68, 0),
    (20, 2, 78, 0),
    (24, 2, 97, 0),
    (30, 2, 116, 0),
    (18, 2, 68, 2),
];

const MEDIUM: [Row; 10] = [
    (10, 1, 16, 0),
    (16, 1, 28, 0),
    (26, 1, 44, 0),
    (18, 2, 32, 0),
    (24, 2, 43, 0),
    (16, 4, 27, 0),
    (18, 4, 31, 0),
    (22, 2, 38, 2),
    (22, 3, 36, 2),
    (26, 4, 43, 1),
];

const QUARTILE: [Row; 10] = [
    (13, 1, 13, 0),
    (22, 1, 22, 0),
    (18, 2, 17, 0),
    (26, 2, 24, 0),
    (18, 2, 15, 2),
    (24, 4, 19, 0),
    (18, 2, 14, 4),
    (22, 4, 18, 2),
    (20, 4, 16, 4),
    (24, 6, 19, 2),
];

const HIGH: [Row; 10] = [
    (17, 1, 9, 0),
    (28, 1, 16, 0),
    (22, 2, 13, 0),
    (16, 4, 9, 0),
    (22, 2, 11, 2),
    (28, 4, 15, 0),
    (26, 4, 13, 1),
    (26, 4, 14, 2),
    (24, 4, 12, 4),
    (28, 6, 15, 2),
];

/// The blocks that a version has in a table.
fn in_table(table: &[Row; 10], version: usize) -> Blocks
    requires low { 1 ≤ version }
    requires high { version ≤ 10 }
    ensures { result ≡ in_table table.now version }
{
    let (check, short, words, long) = table[version - 1];
    Blocks {
        check,
        short,
        words,
        long,
    }
}

impl Level {
    /// The blocks of versions 1 to 10.
    fn table(self) -> &'static [Row; 10]
        ensures { result.now ≡ table self }
    {
        match self {
            Level::L => &LOW,
            Level::M => &MEDIUM,
            Level::Q => &QUARTILE,
            Level::H => &HIGH,
        }
    }

    /// The blocks of a version, 1 to 10.
    #[tactic(auto, unfolding(crate::specs::Blocks::blocks_of))]
    pub(crate) fn blocks(self, version: usize) -> Blocks
        requires low { 1 ≤ version }
        requires high { version ≤ 10 }
        ensures blocks { result ≡ blocks_of self version }
        ensures sound { IsSound result }
        ensures adds_up { codewords_of result ≡ total version }
    {
        in_table(self.table(), version)
    }
}

impl Blocks {
    ghost use Rattle.vp_qr.specs.Blocks.{words_of};

    /// How many data codewords there are.
    pub(crate) fn capacity(self) -> usize
        requires words { self.words ≤ 116 }
        requires all { words_of self ≤ 274 }
        ensures { result ≡ words_of self }
    {
        self.short * self.words + self.long * (self.words + 1)
    }
}
