// Rotations.
ghost use Rattle.std.specs.Prelude.{◌≡◌};
ghost use Rattle.parameters.specs.Rotation.{rotation_of};

use elements::FieldOrientation;

// 1, 2, 3 are quarter turns, others none.
pub fn epl_rotation(rotation: i32) -> FieldOrientation
    ensures { result ≡ rotation_of rotation }
{
    match rotation {
        1 => FieldOrientation::Rotated90,
        2 => FieldOrientation::Rotated180,
        3 => FieldOrientation::Rotated270,
        _ => FieldOrientation::Normal,
    }
}
