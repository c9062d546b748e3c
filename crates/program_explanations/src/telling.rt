use crate::choice::Chosen;
use crate::comparing::explain_comparison;
use crate::pairing::explain_pairing;
use crate::pinned::explain_pinned;
use crate::regions::{explain_patch, explain_regions};
use crate::room::explain_room;
use crate::savings::explain_taken;
use crate::staying::explain_staying;
use crate::subject::Subject;
use crate::unended::explain_unended;
use explanation_texts::Notes;
use std::alloc::AllocError;

/// What a choice takes, what room that leaves, and what stays. It fails only where no memory was left, as all that explain.
pub fn explain_chosen(
    notes: &mut Notes,
    subject: &Subject,
    chosen: &Chosen,
) -> Result<(), AllocError> {
    explain_unended(notes, subject)?;
    explain_taken(notes, subject, chosen)?;
    explain_room(notes, chosen, subject.analysis.regions.count);
    explain_staying(notes, subject, chosen)
}

/// What a program does beside its result, and what of it can't move.
pub fn explain_others(
    notes: &mut Notes,
    subject: &Subject,
    chosen: Option<&Chosen>,
) -> Result<(), AllocError> {
    if subject.inputs.beside.is_some() {
        return explain_comparison(notes, subject);
    }
    if subject.inputs.status == 0 {
        explain_pairing(notes, subject)?;
        explain_regions(notes, subject)?;
        explain_patch(notes, subject);
    }
    explain_pinned(notes, subject, chosen)
}
