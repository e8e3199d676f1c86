//! Nodes that are noted.

ghost use Rattle.std.specs.Prelude.{◌≡◌, ◌∷◌, ◌++◌, [], if◌then◌else◌, OnOk};

use std::alloc::AllocError;

/// Notes a node behind those that were noted, where it is wrong.
///
/// # Errors
///
/// Where memory was refused.
pub fn note(wrong: &mut Vec<usize>, node: usize, is_right: bool) -> Result<(), AllocError>
    ensures { OnOk result (wrong.new.items ≡ (if is_right then wrong.old.items else wrong.old.items ++ node ∷ [])) }
{
    if !is_right {
        wrong.push(node)?;
    }
    Ok(())
}
