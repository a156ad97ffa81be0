//! How a label is put out.
ghost use Rattle.std.specs.Prelude.{◌≡◌};
ghost use Rattle.vp_field.specs.Views.{columns_of};

use vp_label_size::WIDEST;

/// How a label is put out: its size in dots (^PW and ^LL), whether it is turned by 180 degrees (^PO I), and
/// whether left and right are mirrored (^PM Y).
#[derive(Clone, Copy, Debug, PartialEq, Eq)]
pub struct View {
    pub width: u32,
    pub height: u32,
    pub inverted: bool,
    pub mirrored: bool,
}

impl View {
    /// How many columns of the label a band has.
    pub(crate) fn columns(self) -> u32
        ensures { result ≡ columns_of self }
    {
        self.width.min(u32::from(WIDEST))
    }
}
