//! The numbers of terms of triggers.

ghost use Rattle.std.specs.Prelude.{◌≡◌, IfOk};
ghost use Rattle.syntax_tree.specs.SpecExpressionData.{triggers_of};
ghost use Rattle.body_names.specs.SpecTrees.{terms_of, terms_of_triggers};

use base::memory::NoMemory;
use program::sequence::Sequence;
use std::alloc::Global;
use syntax_tree::spec_expression::Trigger;

/// Returns the number of terms of a trigger.
fn count_of(trigger: &Trigger) -> usize
    ensures { result ≡ terms_of trigger.now }
{
    trigger.items.as_slice().len()
}

/// Returns the number of terms of each trigger.
pub fn counts_of(alloc: Global, triggers: &[Trigger]) -> Result<Sequence<usize>, NoMemory>
    ensures { IfOk result (λ counts. counts ≡ terms_of_triggers (triggers_of triggers.now)) }
{
    let mut counts = Sequence::new(alloc);
    for one in triggers {
        counts.push(count_of(one))?;
    }
    Ok(counts)
}
