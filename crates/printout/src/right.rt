// The rights by name.
ghost use Rattle.std.specs.Prelude.{◌≡◌};
ghost use Rattle.printout.specs.Text.{right_name as name_of};

use board::Right;

// Why a function, and no Display: a region's line pads the name to a column, and what a hole with a width prints is known of
// text, but of a type that shows itself only if its Display states that too, for every option.
pub fn right_name(right: Right) -> &'static str
    ensures { result.now ≡ name_of right }
{
    match right {
        Right::NoAccess => "none",
        Right::ReadOnly => "read",
        Right::ReadWrite => "read-write",
    }
}
