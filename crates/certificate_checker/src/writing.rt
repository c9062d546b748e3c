ghost use Rattle.std.specs.Prelude.{◌≡◌, ◌*◌, ◌^◌, ◌<◌, ◌++◌, ◌∷◌, [], length, OnOk, IfOk};
ghost use Rattle.std.specs.List.{flat_map};
ghost use Rattle.placement_programme.specs.Views.{plain_choice};
ghost use Rattle.certificate_checker.specs.{NodeViews.{plain_node}, Views.{plain_tree, plain_certificate}, Digits.{digits_of, number_of}, Spelling.{entry_text, node_text, tree_text, flag_text, choice_text, trees_text, text_of}};

use crate::nodes::TreeNode;
use crate::trees::{Certificate, Tree};
use placement_programme::Choice;
use std::alloc::{AllocError, Global};

/// Writes a number with at most `more` bytes behind the first.
fn push_digits(out: &mut Vec<u8>, more: u32, number: u64) -> Result<(), AllocError>
    requires { number < 2 * 128 ^ more }
    ensures { OnOk result (out.new.items ≡ out.old.items ++ digits_of more number) }
{
    if more == 0 || number < 128 {
        out.push(number as u8)?;
        return Ok(());
    }
    out.push(128 + (number % 128) as u8)?;
    push_digits(out, more - 1, number / 128)
}

#[tactic(auto, unfolding(crate::specs::Digits::number_of))]
fn push_number(out: &mut Vec<u8>, number: u64) -> Result<(), AllocError>
    ensures { OnOk result (out.new.items ≡ out.old.items ++ number_of number) }
{
    push_digits(out, 9, number)
}

fn push_entry(out: &mut Vec<u8>, row: u32, multiplier: u64) -> Result<(), AllocError>
    ensures { OnOk result (out.new.items ≡ out.old.items ++ entry_text (row, multiplier)) }
{
    push_number(out, u64::from(row))?;
    push_number(out, multiplier)
}

fn push_entries(out: &mut Vec<u8>, entries: &[(u32, u64)]) -> Result<(), AllocError>
    ensures { OnOk result (out.new.items ≡ out.old.items ++ flat_map entry_text entries.now) }
{
    for entry in entries {
        push_entry(out, entry.0, entry.1)?;
    }
    Ok(())
}

fn push_vars(out: &mut Vec<u8>, vars: &[u32]) -> Result<(), AllocError>
    ensures { OnOk result (out.new.items ≡ out.old.items ++ flat_map number_of vars.now) }
{
    for var in vars {
        push_number(out, u64::from(*var))?;
    }
    Ok(())
}

/// Writes a node's tag and its first number.
fn push_tagged(out: &mut Vec<u8>, tag: u8, number: u32) -> Result<(), AllocError>
    ensures { OnOk result (out.new.items ≡ out.old.items ++ tag ∷ number_of number) }
{
    out.push(tag)?;
    push_number(out, u64::from(number))
}

fn push_dual(out: &mut Vec<u8>, scale: u32, multipliers: &[(u32, u64)]) -> Result<(), AllocError>
    ensures { OnOk result (out.new.items ≡ out.old.items ++ 2 ∷ number_of scale ++ number_of (length multipliers.now) ++ flat_map entry_text multipliers.now) }
{
    push_tagged(out, 2, scale)?;
    push_number(out, multipliers.len() as u64)?;
    push_entries(out, multipliers)
}

fn push_node(out: &mut Vec<u8>, node: &TreeNode) -> Result<(), AllocError>
    ensures { OnOk result (out.new.items ≡ out.old.items ++ node_text (plain_node node.now)) }
{
    match node {
        TreeNode::Branch { var } => push_tagged(out, 0, *var),
        TreeNode::Over { row } => push_tagged(out, 1, *row),
        TreeNode::Dual { scale, multipliers } => push_dual(out, *scale, multipliers),
        TreeNode::Leaf => {
            out.push(3)?;
            Ok(())
        }
    }
}

fn push_nodes(out: &mut Vec<u8>, nodes: &[TreeNode]) -> Result<(), AllocError>
    ensures { OnOk result (out.new.items ≡ out.old.items ++ flat_map (λ node. node_text (plain_node node)) nodes.now) }
{
    for node in nodes {
        push_node(out, node)?;
    }
    Ok(())
}

fn push_tree(out: &mut Vec<u8>, tree: &Tree) -> Result<(), AllocError>
    ensures { OnOk result (out.new.items ≡ out.old.items ++ tree_text (plain_tree tree.now)) }
{
    match push_nodes(out, &tree.nodes) {
        Ok(_) => Ok(()),
        Err(error) => Err(error),
    }
}

fn push_choice(out: &mut Vec<u8>, choice: &Choice) -> Result<(), AllocError>
    ensures { OnOk result (out.new.items ≡ out.old.items ++ choice_text (plain_choice choice.now)) }
{
    out.push(u8::from(choice.on))?;
    push_number(out, choice.take.len() as u64)?;
    push_vars(out, &choice.take)
}

fn push_trees(out: &mut Vec<u8>, c: &Certificate) -> Result<(), AllocError>
    ensures { OnOk result (out.new.items ≡ out.old.items ++ trees_text (plain_certificate c.now).off (plain_certificate c.now).on) }
{
    match &c.off {
        None => Ok(()),
        Some(off) => match &c.on {
            None => {
                push_number(out, 1)?;
                push_tree(out, off)
            }
            Some(on) => {
                push_number(out, 2)?;
                push_tree(out, off)?;
                push_tree(out, on)
            }
        },
    }
}

fn push_mark(out: &mut Vec<u8>) -> Result<(), AllocError>
    ensures { OnOk result (out.new.items ≡ out.old.items ++ 0x53 ∷ 0x50 ∷ 0x43 ∷ 0x31 ∷ []) }
{
    out.extend_from_slice(&[0x53, 0x50, 0x43, 0x31])
}

/// The text of a certificate, which `check_text` reads back where the certificate is within its ranges: ascending numbers
/// and rows, scales from 1 to 65,536, no depth over 4,096, and no on tree without an off tree.
pub fn write_tree(alloc: Global, c: &Certificate) -> Result<Vec<u8>, AllocError>
    ensures { IfOk result (λ v. v.items ≡ text_of (plain_certificate c.now)) }
{
    let mut out = Vec::new(alloc);
    push_mark(&mut out)?;
    out.push(u8::from(c.off.is_some()))?;
    push_choice(&mut out, &c.choice)?;
    push_trees(&mut out, c)?;
    Ok(out)
}
