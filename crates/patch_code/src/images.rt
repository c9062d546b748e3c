// Images: their words, one behind the other.
ghost use Rattle.std.specs.Prelude.{◌≡◌, ℕ, ◌+◌, ◌*◌, ◌<◌, ◌++◌, List, map, length, IfOk, OnOk};
ghost use Rattle.std.specs.List.{concat};
ghost use Rattle.patch_code.specs.{Layout.{image_places, image_bytes}, StubPlans.{words_of}};

use std::alloc::{AllocError, Global};

/// The bytes of all images.
pub(crate) fn image_bytes(images: &[Vec<u32>]) -> u32
    requires { image_bytes (map words_of images.now) < 4294967296 }
    ensures { result ≡ image_bytes (map words_of images.now) }
{
    let mut bytes = 0;
    for image in images {
        bytes += 4 * (image.len() as u32);
    }
    bytes
}

/// Where each image stands, if they begin at `first`.
pub(crate) fn image_places(
    alloc: Global,
    images: &[Vec<u32>],
    first: u32,
) -> Result<Vec<u32>, AllocError>
    requires { first + image_bytes (map words_of images.now) < 4294967296 }
    ensures { IfOk result (λ places. places.items ≡ image_places first (map words_of images.now)) }
{
    let mut places = Vec::new(alloc);
    let mut at = first;
    for image in images {
        places.push(at)?;
        at += 4 * (image.len() as u32);
    }
    Ok(places)
}

/// The words of all images behind others.
pub(crate) fn push_images(words: &mut Vec<u32>, images: &[Vec<u32>]) -> Result<(), AllocError>
    ensures { OnOk result (words.new.items ≡ words.old.items ++ concat (map words_of images.now)) }
{
    for image in images {
        words.extend_from_slice(image)?;
    }
    Ok(())
}
