// EPL's built-in fonts: a cell in dots for each number, scaled by two multipliers.
ghost use Rattle.std.specs.Prelude.{◌≡◌};
ghost use Rattle.texts.specs.Font.{cell_of, width_of, font_of};

use elements::FontInfo;
use numbers::int::{Checked, checked_mul, equal};
use parameters::rotation::epl_rotation;

#[derive(Clone, Copy)]
pub struct Cell {
    pub width: i32,
    pub height: i32,
}

#[derive(Clone, Copy)]
pub enum Scaled {
    Font(FontInfo),
    Outside,
}

// The cell of a font; that of font 1 for any other number.
pub(crate) fn epl_font_size(font_num: i32) -> Cell
    ensures { result ≡ cell_of font_num }
{
    match font_num {
        2 => Cell {
            width: 10,
            height: 16,
        },
        3 => Cell {
            width: 12,
            height: 20,
        },
        4 => Cell {
            width: 14,
            height: 24,
        },
        5 => Cell {
            width: 32,
            height: 48,
        },
        _ => Cell {
            width: 8,
            height: 12,
        },
    }
}

// height × across / height, each step one rounding.
pub(crate) fn text_width(height: i32, across: i32) -> f64
    ensures { result ≡ width_of height across }
{
    (height as f64) * (across as f64) / (height as f64)
}

// A text's size and rotation. With equal multipliers it is as wide as high.
pub fn font_info(font_num: i32, h_mult: i32, v_mult: i32, rotation: i32) -> Scaled
    ensures { result ≡ font_of font_num h_mult v_mult rotation }
{
    let cell = epl_font_size(font_num);
    let turned = epl_rotation(rotation);
    let Checked::Fits(height) = checked_mul(cell.height, v_mult) else {
        return Scaled::Outside;
    };
    if equal(h_mult, v_mult) {
        return Scaled::Font(FontInfo {
            height: height as f64,
            width: height as f64,
            rotation: turned,
        });
    }
    let Checked::Fits(across) = checked_mul(h_mult, cell.width) else {
        return Scaled::Outside;
    };
    Scaled::Font(FontInfo {
        height: height as f64,
        width: text_width(height, across),
        rotation: turned,
    })
}
