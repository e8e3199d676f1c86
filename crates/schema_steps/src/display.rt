//! Paths as pointers' texts, to be shown.

ghost use Rattle.std.specs.Fmt.{WritesOnOk};
ghost use Rattle.std.specs.Prelude.{Some, map, reverse};
ghost use Rattle.json_values.specs.Pointers.{escape, escape_slashes, part_text, pointer_text};
ghost use Rattle.schema_steps.specs.Steps.{step_part};

use crate::path::Path;
use crate::step::Step;
use shared_lists::Iter;
use std::fmt;

/// The pointer's text, from the root on: a `/` and the part for each step (RFC 6901, section 3).
impl fmt::Display for Path {
    ghost output = { λ path. Some (pointer_text (reverse path)) };

    fn fmt<W: fmt::Write>(&self, f: &mut fmt::Formatter<W>) -> fmt::Result {
        show_behind(self.steps(), f)
    }
}

/// The pointer's text between quotation marks, which are not escaped in it.
impl fmt::Debug for Path {
    fn fmt<W: fmt::Write>(&self, f: &mut fmt::Formatter<W>) -> fmt::Result {
        write!(f, "\"{self}\"")
    }
}

/// The part of a pointer, without the `/` before it.
impl fmt::Display for Step {
    ghost output = { λ step. Some (part_text (step_part step)) };

    fn fmt<W: fmt::Write>(&self, f: &mut fmt::Formatter<W>) -> fmt::Result {
        match self {
            Step::Name(name) => show_escaped(name.as_str(), f),
            Step::Item(index) => write!(f, "{index}"),
        }
    }
}

// Shows the steps, of which the last comes first, from the root on.
fn show_behind<'s, W: fmt::Write>(
    mut steps: Iter<'s, Step>,
    f: &mut fmt::Formatter<W>,
) -> fmt::Result
    ensures { WritesOnOk W.write_str_gives f.old result (pointer_text (reverse (map step_part steps.entry))) f.new }
{
    let Some(step) = steps.next() else {
        return Ok(());
    };
    show_behind(steps, f)?;
    write!(f, "/{step}")
}

// Shows a name with each `~` as `~0` and each `/` as `~1`.
fn show_escaped<W: fmt::Write>(text: &str, f: &mut fmt::Formatter<W>) -> fmt::Result
    ensures { WritesOnOk W.write_str_gives f.old result (escape text.now) f.new }
{
    match text.split_once('~') {
        Some((before, after)) => {
            show_slashes(before, f)?;
            f.write_str("~0")?;
            show_escaped(after, f)
        }
        None => show_slashes(text, f),
    }
}

// Shows a text with each `/` as `~1`.
fn show_slashes<W: fmt::Write>(text: &str, f: &mut fmt::Formatter<W>) -> fmt::Result
    ensures { WritesOnOk W.write_str_gives f.old result (escape_slashes text.now) f.new }
{
    match text.split_once('/') {
        Some((before, after)) => {
            write!(f, "{before}~1")?;
            show_slashes(after, f)
        }
        None => f.write_str(text),
    }
}
