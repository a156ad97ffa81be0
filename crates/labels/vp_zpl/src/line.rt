//! The listing: a line for each item.
ghost use Rattle.std.specs.Prelude.{◌≡◌, ◌≤◌, ◌<◌, ◌+◌, ◌*◌, ◌++◌, ◌∷◌, [], length};
ghost use Rattle.vp_zpl.specs.Lines.{lines_of, legible as legible_as, legible_bytes, more_joined, joined as joined_as, behind_name as behind_name_as, line_of};
ghost use Rattle.vp_zpl.specs.Items.{data_items};
ghost use Rattle.vp_zpl.specs.Items.Item.{Given};
ghost use Rattle.vp_zpl.specs.Shown.{shown_item, shown_part, shown_parts};

use crate::item::{Command, Sent, ZplItem};
use crate::part::Part;
use arrayvec::ArrayVec;
use vp_dots::list;

impl ZplItem<'_> {
    /// The lines of the listing, each up to and with its LF: a command's name and parameters as they were
    /// sent, or `byte` and two hex digits for each byte of data.
    pub fn line(&self) -> ArrayVec<u8, 160>
        ensures { result.items ≡ lines_of (shown_item self.now) }
    {
        match self {
            ZplItem::Command(sent) => sent.line(),
            ZplItem::Data(bytes) => data_lines(bytes.as_slice()),
        }
    }
}

impl Sent {
    fn line(&self) -> ArrayVec<u8, 160>
        ensures { result.items
            ≡ line_of (Given self.now.command self.now.name (shown_parts self.now.parameters.items)) }
    {
        let mut line = ArrayVec::new();
        line.push(self.name.sign);
        line.push(legible(self.name.first));
        line.push(legible(self.name.second));
        behind_name(&mut line, self.command, self.parameters.as_slice());
        line.push(b'\n');
        line
    }
}

/// What stands behind the name.
fn behind_name(line: &mut ArrayVec<u8, 160>, command: Command, parameters: &[Part])
    requires room { length line.old.items ≡ 3 }
    requires eight { length parameters.now ≤ 8 }
    ensures value { line.new.items ≡ line.old.items ++ behind_name_as command (shown_parts parameters.now) }
    ensures len { length line.new.items < 160 }
{
    if let Command::Skipped = command {
        let _fits = line.try_extend_from_slice(b" skipped");
        return;
    }
    joined(line, parameters);
}

/// Appends the parameters, joined by commas.
fn joined(line: &mut ArrayVec<u8, 160>, parameters: &[Part])
    requires { length line.old.items + 17 * length parameters.now < 160 }
    ensures value { line.new.items ≡ line.old.items ++ joined_as (shown_parts parameters.now) }
    ensures len { length line.new.items ≤ length line.old.items + 17 * length parameters.now }
{
    if parameters.is_empty() {
        return;
    }
    append(line, parameters[0].bytes.as_slice());
    for part in &parameters[1..] {
        line.push(b',');
        append(line, part.bytes.as_slice());
    }
}

/// Appends bytes as they show.
fn append(line: &mut ArrayVec<u8, 160>, bytes: &[u8])
    requires { length line.old.items + length bytes.now < 160 }
    ensures value { line.new.items ≡ line.old.items ++ legible_bytes bytes.now }
    ensures len { length line.new.items ≡ length line.old.items + length bytes.now }
{
    for byte in bytes {
        line.push(legible(*byte));
    }
}

/// A byte as it shows: outside 21 to 7E as a point.
#[tactic(auto, unfolding(crate::specs::Lines::legible))]
fn legible(byte: u8) -> u8
    ensures { result ≡ legible_as byte }
{
    if byte >= 0x21 && byte <= 0x7E {
        byte
    } else {
        b'.'
    }
}

fn data_lines(bytes: &[u8]) -> ArrayVec<u8, 160>
    requires { length bytes.now ≤ 3 }
    ensures { result.items ≡ lines_of (data_items bytes.now) }
{
    let mut line = ArrayVec::new();
    for byte in bytes {
        list(&mut line, b"byte", &[*byte]);
    }
    line
}
