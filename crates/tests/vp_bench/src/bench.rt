//! Which bench a word names.
ghost use Rattle.std.specs.Prelude.{◌≡◌, ◌↔◌};
ghost use Rattle.vp_bench.specs.Words.{word_of};
ghost use Rattle.vp_bench.specs.declared.bench.Bench.{Bench};

/// A bench, named for the crate that it measures.
#[derive(Clone, Copy)]
pub enum Bench {
    Dots,
    Glyph,
    Esc,
    Page,
    Qr,
}

impl Bench {
    /// The bench that the word names, if any.
    pub fn named(word: &str) -> Option<Bench>
        ensures { (bench : Bench) → result ≡ Some bench ↔ (word.now ≡ word_of bench) }
    {
        match word {
            "dots" => Some(Bench::Dots),
            "glyph" => Some(Bench::Glyph),
            "esc" => Some(Bench::Esc),
            "page" => Some(Bench::Page),
            "qr" => Some(Bench::Qr),
            _ => None,
        }
    }
}
