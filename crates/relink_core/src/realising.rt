//! The result of a program for a choice of what stands in the scratchpad.
ghost use Rattle.std.specs.Prelude.{◌≡◌, ◌⊎◌, ℕ, ◌<◌, true, false, List, [], length, IfOk};
ghost use Rattle.placement_programme.specs.{Views.{plain_programme, plain_choice}, Plain.{PlainProgramme, PlainChoice}};
ghost use Rattle.result_laws.specs.Choices.{IsChoiceFor};
ghost use Rattle.relink_core.specs.{Choices.{IsAnalysisOf, KeepsMeaning}, Chosen.{AreRegionsOf, IsTakenBy, HaveWords}, MadeResults.{IsMadeFor}, Placed.{taken_of, Realises}, Standing.{AreStanding}};

use crate::analysis::Analysis;
use crate::choosing::{TakenNames, code_regions, taken_names};
use crate::chosen_results::{ResultParts, placed_result};
use crate::code_regions::CodeRegions;
use crate::copy_source::CopySource;
use crate::placed_copy::PlacedCopy;
use crate::site_regions::site_regions;
use board_config::Board;
use patch_code::Stub;
use placement_programme::{Choice, Programme, VarName};
use relocator::{Places, site_words};
use std::alloc::{AllocError, Global};

/// What the units of a program stand by in a result, beside its copies.
#[derive(Drop)]
pub struct MovedParts {
    /// The addresses of sites, ascending, and their new words.
    pub sites: Vec<(u32, u32)>,
    /// The stubs of the patch range, ascending by home.
    pub stubs: Vec<Stub>,
    /// Where each stands.
    pub stub_at: Vec<u32>,
}

/// The result of a program for a choice, with what the choice takes.
#[derive(Drop)]
pub struct Realised {
    /// The result, an ELF file.
    pub bytes: Vec<u8>,
    /// The names of what is taken, in order.
    pub names: Vec<VarName>,
    /// The copies of the pieces that are taken, in order, each at its place.
    pub copies: Vec<PlacedCopy>,
    /// Where objects stand in each region, and copies: objects that are taken in the scratchpad, and any other one at home.
    pub places: Places,
    /// What else units stand by; none where nothing is taken and nothing is overlaid, and the result is the program's file.
    pub moved: Option<MovedParts>,
}

/// The new words of sites and of words of data: at each site for the place of its object in the region of the site.
fn placed_words(
    alloc: Global,
    a: &Analysis,
    regions: &CodeRegions,
    places: &Places,
) -> Result<Vec<(u32, u32)>, AllocError>
    requires analysis { (file : List ℕ) × (board : Board) × IsAnalysisOf file board a.now }
    requires taken { (board : Board) × (p : PlainProgramme) × (choice : PlainChoice) × (t : TakenNames) × IsTakenBy board a.now p choice t × AreRegionsOf choice.on a.now.regions regions.now × (t.places ≡ places.now) }
    ensures { IfOk result (λ words. HaveWords a.now regions.now places.now words.items) }
{
    let region_at = site_regions(alloc, &a.code, &a.graph, regions)?;
    match site_words(alloc, &a.view, &a.graph, places, &region_at) {
        Ok(words) => Ok(words),
        Err(error) => Err(error),
    }
}

/// Whether a choice takes nothing and overlays nothing.
fn takes_nothing(c: &Choice) -> bool
    ensures nothing { result ≡ true → (c.now.on ≡ false) × (c.now.take.items ≡ []) }
    ensures something { result ≡ false → (c.now.on ≡ true) ⊎ (0 < length c.now.take.items) }
{
    !c.on && c.take.is_empty()
}

/// The program's file, where nothing is taken and nothing is overlaid. It fails only where no memory was left.
fn unmoved_result(
    alloc: Global,
    a: &Analysis,
    board: &Board,
    c: &Choice,
    taken: TakenNames,
) -> Result<Realised, AllocError>
    requires { (c.now.on ≡ false) × (c.now.take.items ≡ []) }
    ensures { IfOk result (λ r. (file : List ℕ) (p : PlainProgramme) → IsAnalysisOf file board.now a.now → IsTakenBy board.now a.now p (plain_choice c.now) taken → IsMadeFor file board.now a.now p (plain_choice c.now) r) }
{
    match a.view.bytes.to_vec(alloc) {
        Ok(bytes) => Ok(Realised {
            bytes,
            names: taken.names,
            copies: Vec::new(alloc),
            places: taken.places,
            moved: None,
        }),
        Err(error) => Err(error),
    }
}

/// The result in which what is taken stands in the scratchpad. It fails only where no memory was left.
fn moved_result(
    alloc: Global,
    a: &Analysis,
    board: &Board,
    c: &Choice,
    taken: TakenNames,
) -> Result<Realised, AllocError>
    requires { (file : List ℕ) × (p : PlainProgramme) × IsAnalysisOf file board.now a.now × IsTakenBy board.now a.now p (plain_choice c.now) taken × ((c.now.on ≡ true) ⊎ (0 < length c.now.take.items)) }
    ensures { IfOk result (λ r. (file : List ℕ) (p : PlainProgramme) → IsAnalysisOf file board.now a.now → IsTakenBy board.now a.now p (plain_choice c.now) taken → IsMadeFor file board.now a.now p (plain_choice c.now) r) }
{
    let regions = code_regions(a, c.on);
    let sites = placed_words(alloc, a, &regions, &taken.places)?;
    let source = CopySource {
        code: &a.code,
        live: &a.live,
        graph: &a.graph,
        pieces: &a.pieces,
        sites: &sites,
    };
    let parts = ResultParts {
        view: &a.view,
        source: &source,
        regions: &regions,
        board,
        taken: &taken,
    };
    let placed = placed_result(alloc, &parts)?;
    Ok(Realised {
        bytes: placed.bytes,
        names: taken.names,
        copies: placed.copies,
        places: taken.places,
        moved: Some(MovedParts {
            sites,
            stubs: placed.stubs,
            stub_at: placed.stub_at,
        }),
    })
}

/// The result of a program for a choice of a programme that is made for it: an ELF file in which what is taken
/// stands in the scratchpad, throughout or in its regions, and which does the same.
///
/// Where nothing is taken and nothing is overlaid it is the program's file. It fails only where no memory was left.
pub fn realise(
    alloc: Global,
    a: &Analysis,
    board: &Board,
    p: &Programme,
    c: &Choice,
) -> Result<Realised, AllocError>
    requires analysis { (file : List ℕ) × IsAnalysisOf file board.now a.now }
    requires choice { IsChoiceFor board.now a.now.graph a.now.code a.now.regions a.now.pieces.items (plain_programme p.now) (plain_choice c.now) }
    ensures made { IfOk result (λ r. (file : List ℕ) → IsAnalysisOf file board.now a.now → IsMadeFor file board.now a.now (plain_programme p.now) (plain_choice c.now) r) }
    ensures realises { IfOk result (λ r. (file : List ℕ) → IsAnalysisOf file board.now a.now → Realises file board.now a.now.graph a.now.code a.now.regions (taken_of (plain_programme p.now) (plain_choice c.now)) r.bytes.items) }
    ensures keeps { IfOk result (λ r. (file : List ℕ) → IsAnalysisOf file board.now a.now → KeepsMeaning (taken_of (plain_programme p.now) (plain_choice c.now)) file r.bytes.items board.now) }
    ensures stands { IfOk result (λ r. AreStanding board.now a.now.graph a.now.code a.now.regions (plain_programme p.now) (plain_choice c.now) r.names.items r.copies.items r.places) }
{
    let taken = taken_names(alloc, a, board, p, c)?;
    if takes_nothing(c) {
        match unmoved_result(alloc, a, board, c, taken) {
            Ok(made) => Ok(made),
            Err(error) => Err(error),
        }
    } else {
        match moved_result(alloc, a, board, c, taken) {
            Ok(made) => Ok(made),
            Err(error) => Err(error),
        }
    }
}
