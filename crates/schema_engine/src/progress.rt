//! The references in progress.
ghost use Rattle.std.specs.Prelude.{◌≡◌, ◌∷◌};
ghost use Rattle.schema_engine.specs.Progress.{is_among, numbers_in};

/// The targets of references in progress at the present place, the last one first. They are linked through the calls that follow them,
/// and the list begins anew with each step down.
///
/// Each has bounds of its own number and of all before it, so that a number outside them is not looked for. Nodes are numbered as they
/// are met, so a chain of references leads to numbers that rise, and none of them is compared with those before.
#[derive(Clone, Copy)]
pub enum Progress<'p> {
    Nothing,
    Target {
        node: usize,
        lowest: usize,
        highest: usize,
        before: &'p Progress<'p>,
    },
}

impl<'p> Progress<'p> {
    /// With one target more, in constant time.
    pub fn enter(&'p self, node: usize) -> Progress<'p>
        ensures { numbers_in result ≡ node ∷ numbers_in self.now }
    {
        match self {
            Progress::Nothing => Progress::Target {
                node,
                lowest: node,
                highest: node,
                before: self,
            },
            Progress::Target {
                lowest,
                highest,
                ..
            } => Progress::Target {
                node,
                lowest: node.min(*lowest),
                highest: node.max(*highest),
                before: self,
            },
        }
    }
}

/// Whether a reference to a node is in progress. It goes back over those of which the node is between the lowest and the highest.
pub fn is_in_progress(progress: &Progress<'_>, node: usize) -> bool
    ensures { result ≡ is_among node (numbers_in progress.now) }
{
    match progress {
        Progress::Nothing => false,
        Progress::Target {
            node: other,
            lowest,
            highest,
            before,
        } => {
            if node < *lowest {
                return false;
            }
            if node > *highest {
                return false;
            }
            node == *other || is_in_progress(before, node)
        }
    }
}
