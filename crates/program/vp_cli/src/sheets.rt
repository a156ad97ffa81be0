//! The glyph sheets that a command line names.
ghost use Rattle.std.specs.Prelude.{◌≡◌, ◌⊎◌, ◌≤◌, MatchResult};
ghost use Rattle.vp_exit_status.specs.declared.stop.Stop.TheVariants.{CannotOpen, Memory, Read};
ghost use Rattle.vp_cli.specs.Files.{AreSheets, HasBytes, IsSheet};

use crate::file::{Folder, open};
use std::alloc::Global;
use std::io::Read;
use vp_command_line::Fonts;
use vp_exit_status::Stop;
use vp_glyph::{Sheet, Sheets};

/// Of a sheet's file no more bytes than these are read.
const MOST: u64 = 1_048_576;

/// As many bytes are read at once: a sheet of font A with its header, and that the file ends there.
const AT_ONCE: usize = 16_384;

/// Opens, reads and checks the sheets, font A's first.
pub fn read<'a, F: Folder>(folder: &F, alloc: Global, fonts: Fonts<'a>) -> Result<Sheets, Stop<'a>>
    ensures { AreSheets (F.names folder.now) F.File.remaining fonts.entry result }
{
    let a = sheet(folder, alloc, fonts.a, 12, 24)?;
    let b = sheet(folder, alloc, fonts.b, 9, 17)?;
    Ok(Sheets { a, b })
}

/// A sheet with cells of w by h dots, where one is named.
fn sheet<'a, F: Folder>(
    folder: &F,
    alloc: Global,
    name: Option<&'a str>,
    w: u32,
    h: u32,
) -> Result<Option<Sheet>, Stop<'a>>
    requires w { w ≤ 64 }
    requires h { h ≤ 64 }
    ensures { IsSheet (F.names folder.now) F.File.remaining name.entry w h result }
{
    let Some(name) = name else {
        return Ok(None);
    };
    let bytes = bytes_of(folder, alloc, name)?;
    match Sheet::read(alloc, bytes.as_slice(), w, h) {
        Ok(sheet) => Ok(Some(sheet)),
        Err(error) => Err(Stop::of_sheet(name, error)),
    }
}

/// The bytes of a sheet's file.
fn bytes_of<'a, F: Folder>(folder: &F, alloc: Global, name: &'a str) -> Result<Vec<u8>, Stop<'a>>
    ensures { MatchResult result
        (λ bytes. HasBytes (F.names folder.now) F.File.remaining name.entry.now bytes.items)
        (λ stop. (stop ≡ CannotOpen name.entry) ⊎ ((stop ≡ Read) ⊎ (stop ≡ Memory))) }
{
    let file = open(folder, name)?;
    let Ok(mut bytes) = Vec::with_capacity(alloc, AT_ONCE) else {
        return Err(Stop::Memory);
    };
    match file.take(MOST).read_to_end(&mut bytes) {
        Ok(_) => Ok(bytes),
        Err(error) => Err(Stop::of_read(&error)),
    }
}
