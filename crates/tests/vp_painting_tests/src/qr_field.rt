//! Data of QR fields.
use crate::checks::same;
use vp_dots::{Fault, Why};
use vp_qr::{Level, Mode};
use vp_qr_field::qr_front;

/// What a front says, or why it is refused.
type Front = Result<(Level, Mode, usize), Fault>;

fn front_of(model: u16, data: &[u8]) -> Front {
    match qr_front(model, data) {
        Ok(front) => Ok((front.level, front.mode, front.length)),
        Err(fault) => Err(fault),
    }
}

type Row = (&'static [u8], Front);

/// Data of a field of model 2, and their front.
static FRONTS: [Row; 19] = [
    (b"HA,abc", Ok((Level::H, Mode::Auto, 3))),
    (b"LA,", Ok((Level::L, Mode::Auto, 3))),
    (b"QM,N12", Ok((Level::Q, Mode::Digits, 4))),
    (b"MM,A12", Ok((Level::M, Mode::Alnum, 4))),
    (b"HM,B0003abc", Ok((Level::H, Mode::Bytes, 8))),
    (b"HM,B0000", Ok((Level::H, Mode::Bytes, 8))),
    (b"HM,B0003ab", Err(Fault::Symbol(Why::Length))),
    (b"HM,B0003abcd", Err(Fault::Symbol(Why::Length))),
    (b"HM,B12", Err(Fault::Symbol(Why::Length))),
    (b"HM,B", Err(Fault::Symbol(Why::Length))),
    (b"MM,B3abc", Err(Fault::Symbol(Why::Length))),
    (b"HM,K", Err(Fault::Symbol(Why::Unsupported))),
    (b"HM,", Err(Fault::Symbol(Why::CodeSet))),
    (b"HM,n1", Err(Fault::Symbol(Why::CodeSet))),
    (b"", Err(Fault::Symbol(Why::Empty))),
    (b"HA", Err(Fault::Symbol(Why::CodeSet))),
    (b"hA,1", Err(Fault::Symbol(Why::CodeSet))),
    (b"XA,1", Err(Fault::Symbol(Why::CodeSet))),
    (b"HA;1", Err(Fault::Symbol(Why::CodeSet))),
];

/// The first row of another front.
fn wrong_row(rows: &[Row]) -> Option<usize> {
    for i in 0..rows.len() {
        let (data, want) = rows[i];
        if front_of(2, data) != want {
            return Some(i);
        }
    }
    None
}

/// Fronts that are right, and those that aren't.
#[test]
fn fronts(rt: HostRuntime) {
    same(&rt, &wrong_row(&FRONTS), &None);
    let of_model_1 = [front_of(1, b"HA,abc"), front_of(1, b"")];
    same(&rt, &of_model_1, &[Err(Fault::Symbol(Why::Unsupported)); 2]);
}
