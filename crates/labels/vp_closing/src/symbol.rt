//! Bars and QR symbols of data, or why there are none.
ghost use Rattle.std.specs.Prelude.{◌≡◌, ◌<◌, ◌≤◌, ◌+◌, length, IfOk};
ghost use Rattle.vp_qr_field.specs.Fronts.{front_of};
ghost use Rattle.vp_glyph.specs.Sheets.{Sheets as Given};
ghost use Rattle.vp_closing.specs.Contents.{sized_if};
ghost use Rattle.vp_closing.specs.Symbols.{wide_bar, bars, bars_of, qr_unless, qr_symbol, qr_of};
ghost use Rattle.vp_field.specs.Contents.{bytes_of, LiesIn, IsStored};
ghost use Rattle.vp_qr.specs.Encoding.{refusal};

use vp_bars::linear;
use vp_dots::{Fault, Small};
use vp_field::{SizedContent, bytes_of};
use vp_format::{BarSymbol, QrSymbol, STORED, Span};
use vp_glyph::Sheets;
use vp_label_settings::{BarChoice, BarDefaults, ranged};
use vp_qr::encode;
use vp_qr_field::{QrFront, qr_front};

/// The dots of a wide bar, more than those of a narrow one.
fn wide_bar(defaults: BarDefaults) -> u16
    ensures { result ≡ wide_bar defaults }
{
    let narrow = u16::from(defaults.module_dots);
    (narrow * u16::from(defaults.ratio_tenths) / 10).max(narrow + 1)
}

/// Bars that were asked for, with what the defaults say where they don't say it.
fn bars(defaults: BarDefaults, choice: BarChoice, bytes: Span) -> BarSymbol
    ensures { result ≡ bars defaults choice bytes }
{
    BarSymbol {
        bytes,
        code: choice.code,
        narrow: u16::from(defaults.module_dots),
        wide: wide_bar(defaults),
        height: ranged(1, 8000, defaults.height, choice.height),
        place: choice.place,
    }
}

/// Bars, unless the data have none.
pub fn bars_content<A: Small>(
    sheets: &Sheets<A>,
    stored: &[u8],
    defaults: BarDefaults,
    choice: BarChoice,
    bytes: Span,
) -> Result<SizedContent, Fault>
    requires among { bytes.start + bytes.len ≤ length stored.now }
    requires few { length stored.now ≤ STORED }
    ensures value { result ≡ sized_if sheets.now stored.now
        (bars_of stored.now (bars defaults choice bytes)) }
    ensures stored { IfOk result (λ shown. IsStored stored.now shown.content) }
{
    let bars = bars(defaults, choice, bytes);
    let symbol = linear(bars.code, bytes_of(stored, bars.bytes))?;
    Ok(SizedContent::bars(sheets, &symbol, bars))
}

/// The QR symbol of the bytes behind a front, unless they have none.
fn qr_behind(stored: &[u8], dots: u8, front: QrFront, bytes: Span) -> Result<SizedContent, Fault>
    requires bytes { LiesIn stored.now bytes }
    requires some { 0 < dots }
    requires most { dots ≤ 10 }
    ensures value { (sheets : Given) → result ≡ sized_if sheets stored.now
        (qr_unless (refusal front.level front.mode (bytes_of stored.now bytes))
        (qr_symbol stored.now dots front bytes)) }
    ensures stored { IfOk result (λ shown. IsStored stored.now shown.content) }
{
    let qr = encode(bytes_of(stored, bytes), front.level, front.mode)?;
    Ok(SizedContent::qr(QrSymbol {
        bytes,
        level: front.level,
        mode: front.mode,
        module: dots,
        version: qr.version() as u8,
        mask: qr.mask() as u8,
    }))
}

/// A QR symbol, unless its model isn't drawn, or its data or the bytes behind their front have none.
pub fn qr_content(stored: &[u8], model: u16, dots: u8, bytes: Span) -> Result<SizedContent, Fault>
    requires among { bytes.start + bytes.len ≤ length stored.now }
    requires few { length stored.now ≤ STORED }
    requires some { 0 < dots }
    requires most { dots ≤ 10 }
    ensures value { (sheets : Given) → result ≡ sized_if sheets stored.now
        (qr_of stored.now dots bytes (front_of model (bytes_of stored.now bytes))) }
    ensures stored { IfOk result (λ shown. IsStored stored.now shown.content) }
{
    let front = qr_front(model, bytes_of(stored, bytes))?;
    let taken = front.length as u32;
    let behind = Span {
        start: bytes.start + taken,
        len: bytes.len - taken,
    };
    qr_behind(stored, dots, front, behind)
}
