//! Texts about faults, answers and the version.
ghost use Rattle.std.specs.Prelude.{◌≡◌, None};
ghost use Rattle.vp_calls.specs.Faults.{from_c};
ghost use Rattle.vp_calls.specs.Texts.{HasText};

use vp_calls::{FaultOfC, answer_text, fault_line, version};

/// Writes the line that the program prints of a fault after so many bytes; nothing where there is no fault.
#[unsafe(no_mangle)]
pub extern "C" fn vp_fault_line(fault: &FaultOfC, after: u64, line: &mut [u8]) -> usize
    ensures written { HasText line.old line.new result }
    ensures none { from_c fault.now ≡ None → result ≡ 0 }
{
    fault_line(fault, after, line)
}

/// Writes what an answer means; nothing where it is none, or OK.
#[unsafe(no_mangle)]
pub extern "C" fn vp_answer_text(answer: u32, text: &mut [u8]) -> usize
    ensures { HasText text.old text.new result }
{
    answer_text(answer, text)
}

/// Writes the version.
#[unsafe(no_mangle)]
pub extern "C" fn vp_version(text: &mut [u8]) -> usize
    ensures { HasText text.old text.new result }
{
    version(text)
}

/// The version as a number: its first part ten thousand times, its second a hundred times, and its third.
const VERSION_NUMBER: u32 = 10_100;

/// Tells the version as a number.
#[unsafe(no_mangle)]
pub extern "C" fn vp_version_number() -> u32
    ensures { result ≡ 10100 }
{
    VERSION_NUMBER
}
