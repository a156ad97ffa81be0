//! Two-dimensional symbols of data, in which a sign may begin escapes, or why there are none.
ghost use Rattle.std.specs.Prelude.{◌≡◌, ◌+◌, ◌<◌, ◌≤◌, length, None, Some, OnOk, IfOk, IfErr};
ghost use Rattle.vp_matrix.specs.Encoding.{IsMatrix};
ghost use Rattle.vp_glyph.specs.Sheets.{Sheets as Given};
ghost use Rattle.vp_label_settings.specs.Laws.{AreBars, IsMatrixAsked};
ghost use Rattle.vp_closing.specs.Contents.{sized_if, HaveSymbol, IsShown};
ghost use Rattle.vp_closing.specs.Matrices.{lead_of, code_of, escape_of, by_rows, wide_of, row_high, high_of, plain_data, data_refusal, matrix_of, matrix_made};

use vp_dots::Fault;
use vp_escapes::{is_gs1, unescaped};
use vp_field::{SizedContent, bytes_of};
use vp_format::{MatrixSymbol, STORED, Span};
use vp_label_settings::{BarDefaults, MatrixAsked};
use vp_matrix::{Lead, Matrix, MatrixCode, encode};

/// What leads the data of ^BX, in which a sign begins escapes.
fn lead_of(sign: u8, bytes: &[u8]) -> Lead
    ensures { result ≡ lead_of sign bytes.now }
{
    if is_gs1(sign, bytes) {
        Lead::Gs1
    } else {
        Lead::Plain
    }
}

/// Which symbol data are drawn as.
pub(crate) fn code_of(asked: MatrixAsked, bytes: &[u8]) -> MatrixCode
    ensures { result ≡ code_of asked bytes.now }
{
    match asked {
        MatrixAsked::DataMatrix {
            side: _,
            shape,
            escape,
        } => MatrixCode::DataMatrix {
            lead: lead_of(escape, bytes),
            shape,
        },
        MatrixAsked::Pdf417 { height: _, asked } => MatrixCode::Pdf417 { asked },
        MatrixAsked::Aztec { side: _, asked } => MatrixCode::Aztec { asked },
    }
}

/// The sign that begins an escape in data.
pub(crate) fn escape_of(asked: MatrixAsked) -> Option<u8>
    ensures { result ≡ escape_of asked }
{
    match asked {
        MatrixAsked::DataMatrix {
            side: _,
            shape: _,
            escape,
        } => Some(escape),
        MatrixAsked::Pdf417 { .. } | MatrixAsked::Aztec { .. } => None,
    }
}

/// The dots of a module, where the bars' height is that of so many rows together.
fn by_rows(most: u16, defaults: BarDefaults, rows: usize) -> u16
    requires most { 1 ≤ most }
    ensures value { result ≡ by_rows most defaults rows }
{
    let dots = usize::from(defaults.height) / rows.max(1);
    dots.min(usize::from(most)).max(1) as u16
}

/// The width of a module in dots.
fn wide_of(defaults: BarDefaults, rows: usize, asked: MatrixAsked) -> u8
    requires bars { AreBars defaults }
    requires asked { IsMatrixAsked asked }
    ensures value { result ≡ wide_of defaults rows asked }
    ensures some { 0 < result }
    ensures most { result ≤ 64 }
{
    match asked {
        MatrixAsked::DataMatrix {
            side,
            shape: _,
            escape: _,
        } => side.unwrap_or(by_rows(64, defaults, rows)) as u8,
        MatrixAsked::Pdf417 { .. } => defaults.module_dots,
        MatrixAsked::Aztec { side, asked: _ } => side as u8,
    }
}

/// The height of a row of ^B7 in dots.
fn row_high(defaults: BarDefaults, rows: usize, height: Option<u16>) -> u16
    requires bars { AreBars defaults }
    ensures value { result ≡ row_high defaults rows height }
    ensures some { 0 < result }
    ensures most { result ≤ 1000 }
{
    match height {
        None => by_rows(1000, defaults, rows),
        Some(modules) => {
            let dots = u32::from(defaults.module_dots) * u32::from(modules);
            dots.min(1000).max(1) as u16
        }
    }
}

/// The height of a module in dots.
fn high_of(defaults: BarDefaults, rows: usize, asked: MatrixAsked) -> u16
    requires bars { AreBars defaults }
    requires asked { IsMatrixAsked asked }
    ensures value { result ≡ high_of defaults rows asked }
    ensures some { 0 < result }
    ensures most { result ≤ 1000 }
{
    match asked {
        MatrixAsked::Pdf417 { height, asked: _ } => row_high(defaults, rows, height),
        MatrixAsked::DataMatrix { .. } | MatrixAsked::Aztec { .. } => {
            u16::from(wide_of(defaults, rows, asked))
        }
    }
}

/// The symbol of data, or why they have none. Data with escapes are refused first where they stand for more
/// bytes than a Data Matrix symbol holds (`SymbolTooLong`), and then as those that they stand for.
#[tactic(auto, unfolding(crate::specs::Matrices::data_refusal))]
pub(crate) fn encoded(code: MatrixCode, escape: Option<u8>, bytes: &[u8]) -> Result<Matrix, Fault>
    ensures accepted { OnOk result (data_refusal code escape bytes.now ≡ None) }
    ensures refused { IfErr result (λ fault. data_refusal code escape bytes.now ≡ Some fault) }
    ensures symbol { IfOk result (IsMatrix code (plain_data escape bytes.now)) }
{
    let Some(sign) = escape else {
        return encode(code, bytes);
    };
    match unescaped(sign, bytes) {
        None => Err(Fault::SymbolTooLong),
        Some(data) => encode(code, data.bytes.as_slice()),
    }
}

/// A two-dimensional symbol, unless its data have none, or its modules no room behind what is stored.
pub fn matrix_content(
    stored: &[u8],
    defaults: BarDefaults,
    asked: MatrixAsked,
    bytes: Span,
) -> Result<SizedContent, Fault>
    requires bars { AreBars defaults }
    requires asked { IsMatrixAsked asked }
    requires among { bytes.start + bytes.len ≤ length stored.now }
    requires few { length stored.now ≤ STORED }
    ensures value { (sheets : Given) → result ≡ sized_if sheets stored.now
        (matrix_of stored.now defaults asked bytes) }
    ensures shown { IfOk result (λ shown. IsShown stored.now (matrix_made stored.now asked bytes)
        shown.content) }
    ensures made { OnOk result (HaveSymbol stored.now asked bytes) }
{
    let src = bytes_of(stored, bytes);
    let matrix = encoded(code_of(asked, src), escape_of(asked), src)?;
    let columns = matrix.columns();
    let rows = matrix.rows();
    let len = rows * ((columns + 7) / 8);
    if len > STORED - stored.len() {
        return Err(Fault::StoreFull);
    }
    Ok(SizedContent::matrix(MatrixSymbol {
        modules: Span {
            start: stored.len() as u32,
            len: len as u32,
        },
        columns: columns as u16,
        rows: rows as u16,
        wide: wide_of(defaults, rows, asked),
        high: high_of(defaults, rows, asked),
    }))
}
