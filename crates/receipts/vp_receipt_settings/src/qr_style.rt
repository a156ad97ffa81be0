//! How QR symbols are drawn: their model, their module, and the level of error correction.

use vp_esc::item::{QrLevel, QrModel};

/// How QR symbols are drawn.
#[derive(Clone, Copy)]
pub struct QrStyle {
    pub model: QrModel,
    /// Dots of a module.
    pub module_dots: u8,
    pub level: QrLevel,
}

impl QrStyle {
    pub const START: QrStyle = QrStyle {
        model: QrModel::Two,
        module_dots: 3,
        level: QrLevel::L,
    };
}
