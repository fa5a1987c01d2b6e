// The places of labels (IEC 61131-3:2003, 3.2.1).

ghost use Rattle.std.specs.Prelude.{IfOk};
ghost use Rattle.load_scope.specs.LabelTables.{AreFrom, AreWith, HasLabels};

use base_maps::Table;
use il_syntax::tree::{Body, Named};
use std::alloc::{AllocError, Global};

/// The place of each label of a body, counted from 0; the first with a name counts.
pub fn label_table(alloc: Global, body: &Body) -> Result<Table<usize>, AllocError>
    ensures { IfOk result (HasLabels body.now) }
{
    let steps = body.steps.as_slice();
    let mut labels = Table::new(alloc);
    put_all(alloc, &mut labels, body.last_labels.as_slice(), steps.len())?;
    for passed in 0..steps.len() {
        let at = steps.len() - 1 - passed;
        put_all(alloc, &mut labels, steps[at].labels.as_slice(), at)?;
    }
    Ok(labels)
}

// Puts the labels of a place.
fn put_all(
    alloc: Global,
    labels: &mut Table<usize>,
    names: &[Named],
    at: usize,
) -> Result<(), AllocError>
    ensures { IfOk result (λ _. AreWith labels.old names.now at labels.new) }
{
    for named in names {
        labels.put(alloc, named.name.as_str(), at)?;
    }
    Ok(())
}
