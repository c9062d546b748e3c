ghost use Rattle.std.specs.Prelude.{◌≡◌, ℕ, ◌+◌, ◌<◌, ◌≤◌};
ghost use Rattle.elf_reader.specs.{File.{segments_of}, Loadable.{AreLoadable}};
ghost use Rattle.hex_image.specs.{Runs.{AreMaximal, byte_from, file_map, image_map, plain_run, plain_runs}, Difference.{IsBetween, IsInOne, IsFirstOff, IsDifference, lesser_of, view_run}};

use crate::image::HexImage;
use elf_reader::ElfView;

/// The first difference of a file from an image: the least address at which only one of them has a byte
/// or their bytes differ; where there is none, the file's entry if the image has another or none.
pub fn first_difference(view: &ElfView, image: &HexImage) -> Option<u32>
    requires loadable { AreLoadable (segments_of view.now) }
    requires maximal { AreMaximal (plain_runs image.now) }
    ensures { IsDifference (file_map (segments_of view.now)) view.now.entry (image_map image.now) image.now.entry result }
{
    let in_file = first_in_segments(view, image);
    let in_image = first_in_runs(view, image);
    match lesser(in_file, in_image) {
        Some(address) => Some(address),
        None if image.entry == Some(view.entry) => None,
        None => Some(view.entry),
    }
}

fn lesser(one: Option<u32>, other: Option<u32>) -> Option<u32>
    ensures { result ≡ lesser_of one other }
{
    match (one, other) {
        (Some(a), Some(b)) => Some(a.min(b)),
        (Some(a), None) => Some(a),
        (None, _) => other,
    }
}

/// The first address of the file's bytes at which the image has another byte or none.
fn first_in_segments(view: &ElfView, image: &HexImage) -> Option<u32>
    requires maximal { AreMaximal (plain_runs image.now) }
    requires loadable { AreLoadable (segments_of view.now) }
    ensures { IsFirstOff (IsInOne view_run view.now.segments.items) (file_map (segments_of view.now)) (image_map image.now) result }
{
    let mut first = None;
    for segment in &view.segments {
        let size = segment.bytes.len();
        let off = first_off(view, image, segment.vaddr, size);
        first = lesser(first, off);
    }
    first
}

/// The first address of the image's bytes at which the file has another byte or none.
fn first_in_runs(view: &ElfView, image: &HexImage) -> Option<u32>
    requires { AreMaximal (plain_runs image.now) }
    ensures { IsFirstOff (IsInOne plain_run image.now.runs.items) (file_map (segments_of view.now)) (image_map image.now) result }
{
    let mut first = None;
    for run in &image.runs {
        let off = first_off(view, image, run.at, run.bytes.len());
        first = lesser(first, off);
    }
    first
}

/// The first of `size` addresses from `start` on at which the file and the image differ.
fn first_off(view: &ElfView, image: &HexImage, start: u32, size: usize) -> Option<u32>
    requires maximal { AreMaximal (plain_runs image.now) }
    requires placed { start + size ≤ 4294967296 }
    ensures { IsFirstOff (IsBetween start (start + size)) (file_map (segments_of view.now)) (image_map image.now) result }
{
    for offset in 0..size {
        let address = start + offset as u32;
        if file_byte(view, address) != image_byte(image, address) {
            return Some(address);
        }
    }
    None
}

fn file_byte(view: &ElfView, address: u32) -> Option<u8>
    ensures { result ≡ file_map (segments_of view.now) address }
{
    for segment in &view.segments {
        let byte = byte_at(segment.vaddr, segment.bytes, address);
        if byte.is_some() {
            return byte;
        }
    }
    None
}

fn image_byte(image: &HexImage, address: u32) -> Option<u8>
    requires { AreMaximal (plain_runs image.now) }
    ensures { result ≡ image_map image.now address }
{
    let count = image.runs.partition_point(|run| run.at <= address);
    if count == 0 {
        return None;
    }
    let run = &image.runs[count - 1];
    byte_at(run.at, &run.bytes, address)
}

/// The byte at an address, of bytes from `start` on.
fn byte_at(start: u32, bytes: &[u8], address: u32) -> Option<u8>
    ensures { result ≡ byte_from start bytes.now address }
{
    if address < start {
        return None;
    }
    bytes.get((address - start) as usize).copied()
}
