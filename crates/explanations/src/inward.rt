use crate::paying::paid_text;
use explanation_texts::{InwardCalls, Notes, say_inward};
use program_explanations::{Chosen, InwardCall, Subject, inward_calls, made_calls, paid_of};
use std::alloc::AllocError;

/// The inward calls of the measured runs: of each how many it makes, the first of them in the program, and what OUT pays for them.
pub(crate) fn explain_inward(
    notes: &mut Notes,
    subject: &Subject,
    chosen: &Chosen,
) -> Result<(), AllocError> {
    let inputs = &subject.inputs;
    let calls = inward_calls(inputs.alloc, subject.analysis, chosen)?;
    if calls.is_empty() {
        return Ok(());
    }
    let Some(profile) = chosen.profile else {
        explain_mixed(notes, subject, &calls);
        return Ok(());
    };
    if let Some(made) = made_calls(&calls, profile) {
        let paid = paid_of(&paid_text(inputs)?, chosen);
        let told = InwardCalls { paid, ..made };
        say_inward(notes, &inputs.unchecked(), &told);
    }
    Ok(())
}

/// Those of the runs on the inputs of a mix, which are measured again.
fn explain_mixed(notes: &mut Notes, subject: &Subject, calls: &[InwardCall]) {
    let inputs = &subject.inputs;
    let mut is_first = true;
    for (place, input) in inputs.listed.iter().enumerate() {
        let made = match subject.profile(input) {
            Ok(profile) => made_calls(calls, &profile),
            Err(_) => None,
        };
        if let Some(made) = made {
            let line = Some(place as u64 + 1);
            let told = InwardCalls {
                line,
                is_first,
                ..made
            };
            say_inward(notes, &inputs.unchecked(), &told);
            is_first = false;
        }
    }
}
