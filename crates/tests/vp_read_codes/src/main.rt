//! Decodes texts that are given on standard input, each with an encoding's letter and number and the number
//! of its bytes in three bytes before it: P a code table, T a table of ESC t, R a country of ESC R, C an
//! encoding of ^CI. It tells each unit on a line: the code point, or - where there is none, and its bytes; or
//! ? for a number that means no encoding; and a dot behind each text.
#![tactic(auto)]

use std::alloc::{AllocError, Global};
use std::io::{Read, Write};
use std::process::ExitCode;
use vp_code_tables::{
    CodeTable, Country, Decoded, Decoder, Encoding, IsoPart, NationalSet, esc_r, esc_t, zpl_ci,
};

/// All code tables, in the order of `checks/codes.py`.
static TABLES: [CodeTable; 47] = [
    CodeTable::Cp437,
    CodeTable::Cp720,
    CodeTable::Cp737,
    CodeTable::Cp775,
    CodeTable::Cp850,
    CodeTable::Cp851,
    CodeTable::Cp852,
    CodeTable::Cp855,
    CodeTable::Cp857,
    CodeTable::Cp858,
    CodeTable::Cp860,
    CodeTable::Cp861,
    CodeTable::Cp862,
    CodeTable::Cp863,
    CodeTable::Cp864,
    CodeTable::Cp865,
    CodeTable::Cp866,
    CodeTable::Cp869,
    CodeTable::Cp1125,
    CodeTable::Cp874,
    CodeTable::Cp1250,
    CodeTable::Cp1251,
    CodeTable::Cp1252,
    CodeTable::Cp1253,
    CodeTable::Cp1254,
    CodeTable::Cp1255,
    CodeTable::Cp1256,
    CodeTable::Cp1257,
    CodeTable::Cp1258,
    CodeTable::Kz1048,
    CodeTable::Iso8859(IsoPart::Part1),
    CodeTable::Iso8859(IsoPart::Part2),
    CodeTable::Iso8859(IsoPart::Part3),
    CodeTable::Iso8859(IsoPart::Part4),
    CodeTable::Iso8859(IsoPart::Part5),
    CodeTable::Iso8859(IsoPart::Part6),
    CodeTable::Iso8859(IsoPart::Part7),
    CodeTable::Iso8859(IsoPart::Part8),
    CodeTable::Iso8859(IsoPart::Part9),
    CodeTable::Iso8859(IsoPart::Part10),
    CodeTable::Iso8859(IsoPart::Part11),
    CodeTable::Iso8859(IsoPart::Part13),
    CodeTable::Iso8859(IsoPart::Part14),
    CodeTable::Iso8859(IsoPart::Part15),
    CodeTable::Iso8859(IsoPart::Part16),
    CodeTable::Tis620,
    CodeTable::Katakana,
];

/// The encoding of a letter and a number.
fn encoding(letter: u8, number: u8) -> Option<Encoding> {
    match letter {
        b'P' if usize::from(number) < TABLES.len() => Some(Encoding::Bytes(
            TABLES[usize::from(number)],
            NationalSet::Country(Country::Usa),
        )),
        b'T' => Some(Encoding::Bytes(esc_t(number)?, NationalSet::Country(Country::Usa))),
        b'R' => Some(Encoding::Bytes(CodeTable::Cp437, NationalSet::Country(esc_r(number)?))),
        b'C' => zpl_ci(number),
        _ => None,
    }
}

/// Tells a unit.
fn tell(paper: &mut Vec<u8>, unit: Option<Decoded>) {
    let Some(unit) = unit else {
        return;
    };
    match unit.character {
        Some(code) => {
            let _ = writeln!(paper, "{} {}", code, unit.len);
        }
        None => {
            let _ = writeln!(paper, "- {}", unit.len);
        }
    }
}

/// Tells a text.
fn tell_text(paper: &mut Vec<u8>, encoding: Encoding, text: &[u8]) {
    let mut decoder = Decoder::new(encoding);
    for byte in text {
        let given = decoder.take(*byte);
        tell(paper, given.cut);
        tell(paper, given.unit);
    }
    let given = decoder.finish();
    tell(paper, given.cut);
    tell(paper, given.unit);
}

/// The texts that are given.
fn told(alloc: Global, given: &[u8]) -> Result<Vec<u8>, AllocError> {
    let mut paper = Vec::new(alloc);
    let mut left = given;
    while let [letter, number, high, middle, low, rest @ ..] = left {
        let n = 65536 * usize::from(*high) + 256 * usize::from(*middle) + usize::from(*low);
        if n > rest.len() {
            break;
        }
        let (text, behind) = rest.split_at(n);
        match encoding(*letter, *number) {
            Some(encoding) => tell_text(&mut paper, encoding, text),
            None => {
                let _ = writeln!(paper, "?");
            }
        }
        paper.push(b'.')?;
        paper.push(b'\n')?;
        left = behind;
    }
    Ok(paper)
}

fn main(rt: HostRuntime) -> ExitCode {
    let mut given = Vec::new(rt.alloc());
    if rt.stdin().read_to_end(&mut given).is_err() {
        return ExitCode::from(3);
    }
    let Ok(paper) = told(rt.alloc(), given.as_slice()) else {
        return ExitCode::from(4);
    };
    if rt.stdout().write_all(paper.as_slice()).is_err() {
        return ExitCode::from(3);
    }
    ExitCode::from(0)
}
