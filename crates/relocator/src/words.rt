ghost use Rattle.std.specs.Prelude.{◌≡◌, ℕ, ◌<◌, ◌≤◌, Bool, length, slice_index, IfOk};
ghost use Rattle.std.specs.List.{list_any};
ghost use Rattle.rv32im.specs.Words.{plus};
ghost use Rattle.elf_reader.specs.File.{plain_view};
ghost use Rattle.board_config.specs.declared.board.Board.{Board};
ghost use Rattle.loaded_file.specs.Read.{IsRead};
ghost use Rattle.object_graph.specs.{Graphs.{IsGraph}, Gathered.{AreSeparate, AreInOrder}};
ghost use Rattle.relocator.specs.{Placing.{place_at}, SiteWords.{HasPlaces, AreSiteWords, IsNewAtSite, site_at, data_word_at, word_address, row_length}, Gathering.{AreOfSites, AreOfWords, address_of, HasStart}};

use crate::places::Places;
use crate::rewriting::new_word;
use elf_reader::ElfView;
use loaded_file::{LoadedFile, word_of_code};
use object_graph::Graph;
use std::alloc::{AllocError, Global};

/// The new word at each site and at each word of data, with its address, by address.
///
/// A site makes its part of the address that its object's place in the site's region gives, and a word of data holds
/// the address that its object's place in region 0 gives: `region_at` has the region of each site. It fails only where
/// no memory was left.
///
/// The time grows with n log n, where n is the number of sites, words of data and sections.
pub fn site_words(
    alloc: Global,
    view: &ElfView,
    graph: &Graph,
    places: &Places,
    region_at: &[u32],
) -> Result<Vec<(u32, u32)>, AllocError>
    requires read { IsRead view.now }
    requires graph { (board : Board) × IsGraph (plain_view view.now) board graph.now }
    requires places { HasPlaces graph.now places.now region_at.now }
    ensures { IfOk result (λ words. AreSiteWords (plain_view view.now) graph.now places.now region_at.now words.items) }
{
    let mut words = words_of_sites(alloc, view, graph, places, region_at)?;
    let data_words = words_of_data(alloc, graph, places)?;
    words.extend_from_slice(&data_words)?;
    sort_words(&mut words);
    Ok(words)
}

/// Puts words, of which no two meet, in the order of their addresses.
fn sort_words(words: &mut Vec<(u32, u32)>)
    requires { AreSeparate address_of words.old.items }
    ensures disjoint { AreInOrder address_of words.new.items }
    ensures same { (test : ℕ × ℕ → Bool) → list_any test words.new.items ≡ list_any test words.old.items }
{
    words.sort_unstable_by_key(|entry| entry.0);
}

/// The new words at the sites, in the order of the sites.
fn words_of_sites(
    alloc: Global,
    view: &ElfView,
    graph: &Graph,
    places: &Places,
    region_at: &[u32],
) -> Result<Vec<(u32, u32)>, AllocError>
    requires read { IsRead view.now }
    requires graph { (board : Board) × IsGraph (plain_view view.now) board graph.now }
    requires places { HasPlaces graph.now places.now region_at.now }
    ensures { IfOk result (λ words. AreOfSites (plain_view view.now) graph.now places.now region_at.now (length graph.now.sites.items) words.items) }
{
    let file = LoadedFile::of(alloc, view)?;
    let mut words = Vec::new(alloc);
    for k in 0..graph.sites.len() {
        let word = word_of_site(&file, graph, places, region_at, k);
        words.push((graph.sites[k].at, word))?;
    }
    Ok(words)
}

/// The new word at site `k`.
fn word_of_site(
    file: &LoadedFile,
    graph: &Graph,
    places: &Places,
    region_at: &[u32],
    k: usize,
) -> u32
    requires read { IsRead file.now.view.now }
    requires graph { (board : Board) × IsGraph (plain_view file.now.view.now) board graph.now }
    requires places { HasPlaces graph.now places.now region_at.now }
    requires below { k < length graph.now.sites.items }
    ensures { IsNewAtSite (plain_view file.now.view.now) graph.now places.now region_at.now k result }
{
    let site = &graph.sites[k];
    let word = word_of_code(file, site.at);
    let place = place_at(places, site.object, region_at[k]);
    new_word(site.kind, word, place.wrapping_add(site.offset))
}

/// The place of an object in a region.
fn place_at(places: &Places, object: u32, region: u32) -> u32
    requires object { object < length places.now.of.items }
    requires region { region < row_length places.now object }
    ensures { result ≡ place_at places.now object region }
{
    places.of[object as usize][region as usize]
}

/// The new words of data, in their order.
fn words_of_data(
    alloc: Global,
    graph: &Graph,
    places: &Places,
) -> Result<Vec<(u32, u32)>, AllocError>
    requires { (k : ℕ) → k < length graph.now.data_words.items → HasStart graph.now places.now k }
    ensures { IfOk result (λ words. AreOfWords graph.now places.now (length graph.now.data_words.items) words.items) }
{
    let mut words = Vec::new(alloc);
    for k in 0..graph.data_words.len() {
        let word = word_of_data(graph, places, k);
        words.push((graph.data_words[k].at, word))?;
    }
    Ok(words)
}

/// The new word of data `k`.
fn word_of_data(graph: &Graph, places: &Places, k: usize) -> u32
    requires below { k < length graph.now.data_words.items }
    requires place { HasStart graph.now places.now k }
    ensures { result ≡ word_address graph.now places.now k }
{
    let word = &graph.data_words[k];
    place_at(places, word.object, 0).wrapping_add(word.offset)
}
