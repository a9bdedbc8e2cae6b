//! The style in which a job writes locations.
ghost use Rattle.std.specs.Prelude.{◌≡◌};
ghost use Rattle.oscip_run.specs.Styles.{style_of_job, style_of_tree};
ghost use Rattle.texts.specs.Places.{style_of};

use oscip_job::{Job, SourceTree};
use texts::LocationStyle;

/// The style of locations in the files of a tree.
pub fn style_of_tree(tree: &SourceTree) -> LocationStyle<'_>
    // If the tree is read for an editor, the result is the editor style with the tree's folder; otherwise it is the plain style.
    ensures { style_of result ≡ style_of_tree tree.now }
{
    if tree.for_editor {
        LocationStyle::Editor {
            folder: tree.folder.as_str(),
        }
    } else {
        LocationStyle::Plain
    }
}

/// The style of the locations that a job writes.
pub fn style_of_job(job: &Job) -> LocationStyle<'_>
    // A job on a tree has the style of the tree. A job that queries an index for an editor has the editor style without a folder. Any other
    // job has the plain style.
    ensures { style_of result ≡ style_of_job job.now }
{
    match job {
        Job::Tree { tree, .. } | Job::Unresolved(tree) => style_of_tree(tree),
        Job::Index(indexing) => style_of_tree(&indexing.tree),
        Job::Ask {
            for_editor: true,
            ..
        } => LocationStyle::Editor { folder: "" },
        Job::Ask { .. } | Job::Network { .. } => LocationStyle::Plain,
    }
}
