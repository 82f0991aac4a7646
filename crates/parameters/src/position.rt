// A position and the reference point (01, "Grammar": "The reference is added to every position").
ghost use Rattle.std.specs.Prelude.{◌≡◌};
ghost use Rattle.parameters.specs.Position.{placed};

use elements::LabelPosition;
use numbers::int::{Checked, checked_add};

#[derive(Clone, Copy)]
pub enum Placed {
    At(LabelPosition),
    Outside,
}

// x, y with the reference added, where both sums have 32 bits.
pub fn place(x: i32, y: i32, reference: LabelPosition) -> Placed
    ensures { result ≡ placed x y reference }
{
    let Checked::Fits(across) = checked_add(x, reference.x) else {
        return Placed::Outside;
    };
    let Checked::Fits(down) = checked_add(y, reference.y) else {
        return Placed::Outside;
    };
    Placed::At(LabelPosition { x: across, y: down })
}
