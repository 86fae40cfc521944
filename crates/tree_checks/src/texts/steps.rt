//! The steps to the branch that a trace leaves open.

use crate::grown::steps::GrownStep;
use base::memory::NoMemory;
use search::trees::application::{PoolApplication, is_fork};
use std::alloc::Global;

// The case after that of the step. `None` if it is the last one.
fn next_case(step: &GrownStep) -> Option<usize> {
    if !is_fork(step.extension.reason) {
        return None;
    }
    match step.case.checked_add(1) {
        Some(case) if case < step.extension.formulas.len() => Some(case),
        _ => None,
    }
}

// Goes back to the last step with a case left, and on to that case. Returns false if there is none.
fn resume(steps: &mut Vec<GrownStep>) -> Result<bool, NoMemory> {
    while let Some(step) = steps.pop() {
        if let Some(case) = next_case(&step) {
            let GrownStep { extension, case: _ } = step;
            steps.push(GrownStep { extension, case })?;
            return Ok(true);
        }
    }
    Ok(false)
}

/// Returns the steps, one after another, to the first branch that the trace leaves open. `None` if the trace continues
/// after an application that closes the last branch.
pub(crate) fn steps_to_open(
    alloc: Global,
    text: Vec<PoolApplication>,
) -> Result<Option<Vec<GrownStep>>, NoMemory> {
    let mut steps = Vec::new(alloc);
    for application in text {
        match application {
            PoolApplication::Grown(extension) => steps.push(GrownStep { extension, case: 0 })?,
            PoolApplication::Closed(_) => {
                if !resume(&mut steps)? {
                    return Ok(None);
                }
            }
        }
    }
    Ok(Some(steps))
}
