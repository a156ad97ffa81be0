//! What is in force on a page: its mode, its area, the direction of its lines, and how far down it is used.
ghost use Rattle.std.specs.Prelude.{◌≡◌, ◌≤◌, ◌<◌, ◌+◌, ◌-◌, ◌∷◌, List, [], ℕ, nat_lt, not, true, ◌&&◌, ◌||◌, if◌then◌else◌, Some, None};
ghost use Rattle.vp_esc.specs.declared.item.EscItem.{EscItem};
ghost use Rattle.vp_page.specs.Areas.{line_length as length_on_page};
ghost use Rattle.vp_page.specs.declared.page.TheConstants.{PAGE_ROWS};
ghost use Rattle.vp_page.specs.declared.line.TheConstants.{LINE_DOTS};
ghost use Rattle.vp_receipt_settings.specs.Setup.{Setup};
ghost use Rattle.vp_receipt_settings.specs.Pages.{is_paged, is_area, area_cut, direction_of, is_vertical_move, vertical_moved, vertical_after, raised, area};
ghost use Rattle.vp_receipt_settings.specs.Line.{symbol_top, begins_page, mode, vertical};
ghost use Rattle.vp_receipt_settings.specs.Extent.{used, printed_rows};
ghost use Rattle.vp_receipt_settings.specs.Settings.{settings_of, page_of, IsFit, IsFitPage};
ghost use Rattle.vp_receipt_settings.specs.Followed.{IsWithin, lays_rows_by, page_going, page_after};
ghost use Rattle.vp_receipt_settings.specs.declared.effect.Effect.{Effect};
ghost use Rattle.vp_receipt_settings.specs.Runs.{below};
ghost use Rattle.vp_receipt_settings.specs.Rasters.{is_row_end, raster_scale, times_down};

use crate::effect::{Effect, NextLines};
use crate::settings::Settings;
use crate::width::Width;
use vp_esc::item::PrintDirection;
use vp_page::{Area, Direction, PAGE_ROWS};

/// Whether lines are printed on paper or laid on a page.
#[derive(Clone, Copy, Debug, PartialEq, Eq)]
pub enum PrinterMode {
    Standard,
    Page,
}

/// What is in force on the page.
#[derive(Clone, Copy)]
pub struct PageSettings {
    pub mode: PrinterMode,
    pub area: Area,
    pub direction: Direction,
    /// Where the next line is laid, from the area's top as its lines run.
    pub vertical: u16,
    /// The greatest lower edge of the areas that ESC W set on the page, or in which a row was laid; 0 where
    /// there is none.
    pub used: u16,
}

/// The direction that ESC T names.
pub(crate) fn direction_of(direction: PrintDirection) -> Direction
    ensures { result ≡ direction_of direction }
{
    match direction {
        PrintDirection::LeftToRight => Direction::LeftToRight,
        PrintDirection::BottomToTop => Direction::BottomToTop,
        PrintDirection::RightToLeft => Direction::RightToLeft,
        PrintDirection::TopToBottom => Direction::TopToBottom,
    }
}

/// The area that ESC W sets, which ends at the page's edges; none where it doesn't begin on the page, or has
/// no dot.
pub(crate) fn area_of(paper: Width, x: u16, y: u16, wide: u16, high: u16) -> Option<Area>
    ensures { result ≡
        (if is_area paper x y wide high then Some (area_cut paper x y wide high) else None) }
{
    if x >= paper.across() || usize::from(y) >= PAGE_ROWS || wide == 0 || high == 0 {
        return None;
    }
    Some(Area {
        x,
        y,
        dx: wide.min(paper.across() - x),
        dy: high.min(PAGE_ROWS as u16 - y),
    })
}

/// The vertical position moved, where it can be.
pub(crate) fn vertical_moved(by: i16, vertical: u16) -> Option<u16>
    ensures { result ≡ (if is_vertical_move by vertical then Some (vertical_moved by vertical) else None) }
{
    vertical.checked_add_signed(by)
}

/// The vertical position after rows.
fn vertical_after(vertical: u16, rows: u32) -> u16
    ensures { result ≡ vertical_after vertical rows }
{
    u32::from(vertical).saturating_add(rows).min(65535) as u16
}

/// The greatest lower edge, with that of an area which is used or not.
fn raised(uses: bool, area: Area, old: u16) -> u16
    requires down { area.y + area.dy ≤ PAGE_ROWS }
    ensures value { result ≡ raised uses area old }
    ensures most { old ≤ PAGE_ROWS → result ≤ PAGE_ROWS }
{
    if uses { old.max(area.y + area.dy) } else { old }
}

impl PageSettings {
    /// What is in force at the start.
    pub fn start(paper: Width) -> PageSettings
        ensures settings { (setup : Setup) → setup.width ≡ paper → result ≡ page_of setup [] }
        ensures fit { IsFitPage result }
    {
        PageSettings {
            mode: PrinterMode::Standard,
            area: Area {
                x: 0,
                y: 0,
                dx: paper.across(),
                dy: PAGE_ROWS as u16,
            },
            direction: Direction::LeftToRight,
            vertical: 0,
            used: 0,
        }
    }

    /// Whether page mode is in force.
    pub fn is_paged(self) -> bool
        ensures { result ≡ is_paged self.mode }
    {
        match self.mode {
            PrinterMode::Standard => false,
            PrinterMode::Page => true,
        }
    }

    /// How many dots a line of the area holds.
    pub fn line_length(self) -> u16
        requires { IsFitPage self }
        ensures value { result ≡ length_on_page self.area self.direction }
        ensures most { result ≤ LINE_DOTS }
    {
        self.area.line_length(self.direction)
    }

    /// The settings with another vertical position.
    fn at(self, vertical: u16) -> PageSettings
        ensures { result ≡ record self { vertical = vertical } }
    {
        PageSettings { vertical, ..self }
    }

    /// The settings where the next lines go elsewhere.
    fn going(self, next: NextLines) -> PageSettings
        requires fit { IsFitPage self }
        requires within { IsWithin (Effect.Lays next) }
        ensures value { result ≡ page_going next self }
        ensures fit { IsFitPage result }
    {
        match next {
            NextLines::At(vertical) => self.at(vertical),
            NextLines::Within(area) => PageSettings {
                area,
                vertical: 0,
                used: raised(true, area, self.used),
                ..self
            },
            NextLines::Along(direction) => PageSettings {
                direction,
                vertical: 0,
                ..self
            },
        }
    }

    /// What is in force after rows were laid.
    fn below(self, rows: u32) -> PageSettings
        requires { IsFitPage self }
        ensures value { result ≡ record self {
          vertical = vertical_after self.vertical rows;
          used = raised (nat_lt 0 rows) self.area self.used;
        } }
        ensures fit { IsFitPage result }
    {
        PageSettings {
            vertical: vertical_after(self.vertical, rows),
            used: raised(rows > 0, self.area, self.used),
            ..self
        }
    }
}

impl Settings {
    /// Where a symbol is laid: below the line that it ends.
    pub fn symbol_top(self) -> u16
        ensures { (setup : Setup) (before : List EscItem) → self ≡ settings_of setup before →
            result ≡ symbol_top setup before }
    {
        vertical_after(self.page.vertical, self.ended_rows())
    }

    /// The settings after a byte that ends a row of a raster, which was laid or printed `times` times; or
    /// after `times` rows.
    pub fn after_row(self, times: u32) -> Settings
        requires { IsFit self }
        ensures value { result ≡ below self times }
        ensures settings { (setup : Setup) (before : List EscItem) (byte : ℕ) →
            self ≡ settings_of setup before → is_row_end before ≡ true →
            times ≡ times_down (raster_scale before) →
            result ≡ settings_of setup (EscItem.RasterByte byte ∷ before) }
        ensures fit { IsFit result }
    {
        Settings {
            page: self.page.below(times),
            ..self
        }
    }

    /// How many rows of the page are printed.
    pub fn printed_rows(self) -> u32
        requires { IsFit self }
        ensures rows { (setup : Setup) (before : List EscItem) → self ≡ settings_of setup before →
            result ≡ printed_rows setup before }
        ensures most { result ≤ PAGE_ROWS }
    {
        let used = raised(self.is_open, self.page.area, self.page.used);
        if used == 0 {
            u32::from(self.page.area.y) + u32::from(self.page.area.dy)
        } else {
            u32::from(used)
        }
    }

    /// Whether ESC L begins a page.
    pub(crate) fn begins_page(self) -> bool
        ensures { result ≡ (not (is_paged self.page.mode) && not self.is_open) }
    {
        match self.page.mode {
            PrinterMode::Standard => !self.is_open,
            PrinterMode::Page => false,
        }
    }

    /// Whether rows are laid in the area by an effect, with `symbol_rows` rows of a symbol.
    fn lays_rows(self, effect: Effect, symbol_rows: u32) -> bool
        ensures { result ≡ lays_rows_by self effect symbol_rows }
    {
        self.rows_of(effect) > 0 || symbol_rows > 0 || (effect.lays() && self.is_open)
    }

    /// What is in force on the page after an effect, with `symbol_rows` rows of a symbol.
    pub(crate) fn page_after(self, effect: Effect, symbol_rows: u32) -> PageSettings
        requires fit { IsFit self }
        requires within { IsWithin effect }
        ensures value { result ≡ page_after self effect symbol_rows }
        ensures fit { IsFitPage result }
    {
        let lays = self.lays_rows(effect, symbol_rows);
        let page = PageSettings {
            used: raised(lays, self.page.area, self.page.used),
            ..self.page
        };
        match effect {
            Effect::Breaks { .. } | Effect::Feeds(_) | Effect::BeginsRaster(_) => {
                page.at(vertical_after(page.vertical, self.rows_of(effect)))
            }
            Effect::Draws => page.at(vertical_after(
                vertical_after(page.vertical, self.rows_of(effect)),
                symbol_rows,
            )),
            Effect::Lays(next) => page.going(next),
            Effect::Wipes => page.at(0),
            Effect::BeginsPage => PageSettings {
                mode: PrinterMode::Page,
                vertical: 0,
                used: 0,
                ..page
            },
            Effect::LeavesPage | Effect::EndsPage => PageSettings {
                mode: PrinterMode::Standard,
                ..page
            },
            Effect::Nothing
            | Effect::Sets
            | Effect::Moves(_)
            | Effect::Tabs
            | Effect::Initializes
            | Effect::Puts(_)
            | Effect::Cuts { .. }
            | Effect::Fills(_)
            | Effect::PrintsPage => page,
        }
    }
}
