//! Which keywords of a node are asked together.
ghost use Rattle.std.specs.Prelude.{IfSome};
ghost use Rattle.schema_engine.specs.Pairs.{ArePaired};

use crate::node::Together;
use crate::validate::Validate;

/// The two keywords to which a node's hint points, if they go together and the second stands before the first.
pub fn paired<K: Validate>(keywords: &[K], hint: Together) -> Option<Together>
    ensures { IfSome result (ArePaired K.pairs keywords.now) }
{
    let first = keywords.get(hint.first)?;
    let second = keywords.get(hint.second)?;
    if hint.second < hint.first && first.goes_with(second) {
        Some(hint)
    } else {
        None
    }
}
