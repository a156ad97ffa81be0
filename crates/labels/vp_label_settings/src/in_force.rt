//! All that is in force, and what a command changes of it.
ghost use Rattle.std.specs.Prelude.{◌≡◌, ◌∷◌, [], List, ℕ, IfOk, MatchResult, None, Some, length, true};
ghost use Rattle.vp_zpl.specs.Spelling.{Kept};
ghost use Rattle.vp_zpl.specs.declared.name.Name.{Name};
ghost use Rattle.vp_zpl.specs.Items.Item.{Given};
ghost use Rattle.vp_zpl.specs.Items.{Item};
ghost use Rattle.vp_label_settings.specs.Formats.{is_open, is_open_by, stored};
ghost use Rattle.vp_label_settings.specs.Refusals.{head_refusal};
ghost use Rattle.vp_label_settings.specs.Standing.{StandsAfter};

use crate::parts::FieldParts;
use crate::settings::Settings;
use vp_dots::Fault;
use vp_zpl::Command;

/// All that is in force on a label printer.
#[derive(Clone, Copy)]
pub struct InForce {
    /// Whether a format is open.
    pub is_open: bool,
    pub settings: Settings,
    pub parts: FieldParts,
}

/// Whether a format is open behind a command.
fn is_open_behind(command: Command, is_open: bool) -> bool
    ensures { result ≡ is_open_by command is_open }
{
    match command {
        Command::FormatStart => true,
        Command::FormatEnd => false,
        _ => is_open,
    }
}

impl InForce {
    /// What is in force before anything was sent.
    pub fn new() -> InForce
        ensures { StandsAfter result [] }
    {
        InForce {
            is_open: false,
            settings: Settings::new(),
            parts: FieldParts::new(),
        }
    }

    /// What a command leaves in force, where the next byte of a format's data is stored at `start`; or why it
    /// is refused before any field is closed: in a format, a head of ^GF that can't be one. Outside a format
    /// every command but ^XA is ignored, and inside ^XA is.
    pub fn after(self, command: Command, start: u32) -> Result<InForce, Fault>
        ensures refusal { MatchResult result (λ _. head_refusal self.is_open command ≡ None)
            (λ f. head_refusal self.is_open command ≡ Some f) }
        ensures stands { IfOk result (λ now. (before : List Item) (name : Name) (sent : List Kept) →
            StandsAfter self before → (is_open before ≡ true → start ≡ length (stored before)) →
            StandsAfter now (Given command name sent ∷ before)) }
    {
        let is_open = is_open_behind(command, self.is_open);
        if !self.is_open {
            return Ok(InForce { is_open, ..self });
        }
        Ok(InForce {
            is_open,
            settings: self.settings.after(command),
            parts: self.parts.after(command, start)?,
        })
    }
}
