use anyhow::{Context, Result, bail};
use branch_bound::{Found, Status, fill, solve};
use certificate_checker::{Tree, accepted};
use placement_programme::{Choice, Programme, energy, feasible, gain_of};
use shelf_io::NoProgress;
use std::alloc::Global;

/// How many nodes are visited at most, as where a board does not say it.
const NODES: u64 = 100_000;

fn nodes_of_side(tree: &Option<Tree>) -> u64 {
    match tree {
        Some(tree) => tree.nodes.len() as u64,
        None => 0,
    }
}

/// The energy of the choice that was found.
fn energy_of(p: &Programme, found: &Found) -> Result<u128> {
    let gain = accepted(p, &found.choice).context("the choice is not feasible")?;
    p.base
        .checked_sub(gain)
        .context("the choice is not feasible")
}

/// The least energy and the nodes of the certificate.
fn told_least(alloc: Global, p: &Programme, found: &Found) -> Result<String> {
    let energy = energy_of(p, found)?;
    let off = nodes_of_side(&found.certificate.off);
    let nodes = off.saturating_add(nodes_of_side(&found.certificate.on));
    Ok(match found.status {
        Status::Optimal => format!(in alloc; "optimal, energy {energy}, {nodes} nodes")?,
        Status::BestFound { nodes } => format!(in alloc; "best found {nodes}, energy {energy}")?,
    })
}

/// Solves a programme, and tells the least energy and the nodes of the certificate.
pub(crate) fn least(alloc: Global, p: &Programme) -> Result<String> {
    told_least(alloc, p, &solve(alloc, p, NODES, &NoProgress)?)
}

/// What the key names of what was found within a budget of nodes.
fn told(alloc: Global, p: &Programme, nodes: u64, found: &Found, key: &str) -> Result<String> {
    let (choice, certificate) = (&found.choice, &found.certificate);
    Ok(match key {
        "solve" => format!(in alloc; "{:?}, energy {}", found.status, energy_of(p, found)?)?,
        "choose" => format!(in alloc; "{nodes} nodes: on {} {:?}", choice.on, choice.take)?,
        "trees" => format!(in alloc;
            "{nodes} nodes: trees off {}, on {}",
            certificate.off.is_some(),
            certificate.on.is_some()
        )?,
        _ => bail!("a question has no known key"),
    })
}

/// Solves a programme within a budget of nodes, and tells what the key names: the status and the energy of the choice
/// (`solve`), the choice (`choose`), or which sides have trees (`trees`).
pub(crate) fn solution(alloc: Global, p: &Programme, nodes: u64, key: &str) -> Result<String> {
    if nodes == 0 {
        bail!("no nodes");
    }
    told(alloc, p, nodes, &solve(alloc, p, nodes, &NoProgress)?, key)
}

/// The choice that fills the first side in the order of the stated list.
pub(crate) fn filled(alloc: Global, p: &Programme) -> Result<String> {
    Ok(format!(in alloc; "filled: {:?}", fill(alloc, p)?.take)?)
}

/// The gain and the energy of a choice that gains no more than the base.
fn told_gain(alloc: Global, p: &Programme, choice: &Choice) -> Result<String> {
    if !feasible(p, choice) {
        return Ok(String::from_str(alloc, "not feasible")?);
    }
    let gain = gain_of(p, choice);
    if gain > p.base as i128 {
        bail!("a choice gains more than the base");
    }
    Ok(format!(in alloc; "gain {gain}, energy {}", energy(p, choice))?)
}

/// Tells the gain and the energy of a choice, if it is feasible.
pub(crate) fn chosen(alloc: Global, p: &Programme, choice: &Choice) -> Result<String> {
    let (on, take) = (choice.on, &choice.take);
    Ok(format!(in alloc; "on {on} {take:?}: {}", told_gain(alloc, p, choice)?)?)
}
