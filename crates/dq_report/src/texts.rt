ghost use Rattle.std.specs.Prelude.{◌≡◌, ◌++◌, ◌∷◌, [], OnOk};

use dq_base::{Memory, Text};

/// Puts a line end behind the text.
pub fn put_end(text: &mut Text) -> Result<(), Memory>
    ensures { OnOk result (text.new ≡ text.old ++ 10 ∷ []) }
{
    text.push(b'\n')
}
