//! The programme of a placement that a run states, and the best choice of it.
ghost use Rattle.std.specs.Prelude.{◌≤◌};

use crate::listing::Listing;
use anyhow::{Result, bail};
use placement_programme::{Choice, Programme, Side, Var, VarName, gain_of};
use relinking::find_choice;
use shelf_io::NoProgress;

/// Lists a table of the programme that a run states: `programme`, all of it with its least energy, or `choice`, the least
/// energy and what the choice takes.
pub(crate) fn list_programme(
    listing: &mut Listing,
    table: &str,
    programme: &Programme,
    nodes: u64,
) -> Result<()>
    requires { 1 ≤ nodes }
{
    match table {
        "programme" => {
            list_sides(listing, programme);
            list_best(listing, programme, nodes)?;
        }
        "choice" => {
            let choice = list_best(listing, programme, nodes)?;
            list_taken(listing, programme, &choice);
        }
        _ => bail!("a table has no known name"),
    }
    Ok(())
}

fn list_sides(listing: &mut Listing, programme: &Programme) {
    listing.value_line("base ", &programme.base);
    list_side(listing, "side off fixed ", &programme.off);
    if let Some(side) = &programme.on {
        list_side(listing, "side on fixed ", side);
    }
}

/// The rows of a side, and a line for each variable.
fn list_side(listing: &mut Listing, title: &str, side: &Side) {
    listing.value_line(title, &side.fixed);
    listing.text("rows");
    listing.numbers(&side.rows);
    for var in &side.vars {
        list_var(listing, var);
    }
}

/// What a variable gains, and its weights.
fn list_var(listing: &mut Listing, var: &Var) {
    listing.value("var ", &var.gain);
    for (row, weight) in &var.weights {
        listing.number(" ", u64::from(*row));
        listing.number(":", *weight);
    }
    listing.end_line();
}

/// The least energy that is found of a programme, and its choice.
fn list_best(listing: &mut Listing, programme: &Programme, nodes: u64) -> Result<Choice>
    requires { 1 ≤ nodes }
{
    let solution = find_choice(listing.alloc(), programme, nodes, &NoProgress)?;
    let found = solution.found;
    let choice = found.choice;
    let gain = gain_of(programme, &choice);
    listing.value_line("optimum ", &(programme.base as i128 - gain));
    Ok(choice)
}

/// A line for each variable that a choice takes.
fn list_taken(listing: &mut Listing, programme: &Programme, choice: &Choice) {
    let vars = match &programme.on {
        Some(side) if choice.on => &side.vars,
        _ => &programme.off.vars,
    };
    for number in &choice.take {
        if let Some(var) = vars.get(*number as usize) {
            list_name(listing, var.name);
        }
    }
}

/// What a variable stands for: objects by number, pieces by their first and last block.
fn list_name(listing: &mut Listing, name: VarName) {
    match name {
        VarName::StaticData { object } => list_item(listing, "static data", &[object]),
        VarName::StaticCode { first, last } => list_item(listing, "static code", &[first, last]),
        VarName::OverlayData { region, object } => {
            list_item(listing, "overlay data", &[region, object]);
        }
        VarName::OverlayCode {
            region,
            first,
            last,
        } => list_item(listing, "overlay code", &[region, first, last]),
        VarName::KeptData { pair, object } => list_item(listing, "kept data", &[pair, object]),
    }
}

fn list_item(listing: &mut Listing, kind: &str, numbers: &[u32]) {
    listing.text(kind);
    for number in numbers {
        listing.number(" ", u64::from(*number));
    }
    listing.end_line();
}
