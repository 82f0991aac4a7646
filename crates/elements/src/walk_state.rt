// The state of a walk.
ghost use Rattle.std.specs.Prelude.{◌≡◌};
ghost use Rattle.elements.specs.Walk.{fresh};

use crate::LabelPosition;

// The reference point, how many elements are pending, and where the next unit stands. Hosts of the static library keep
// it as it is. The place is last:
// compilers copy the first sixteen bytes in one move, which waits for all that was just stored there, and the next step
// waits for the place alone.
#[repr(C)]
#[derive(Clone, Copy)]
pub struct WalkState {
    pub reference: LabelPosition,
    pub pending: usize,
    pub place: usize,
}

// The state before the first byte.
pub fn start() -> WalkState
    ensures { result ≡ fresh }
{
    WalkState {
        place: 0,
        reference: LabelPosition { x: 0, y: 0 },
        pending: 0,
    }
}
