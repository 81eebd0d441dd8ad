//! The rows below a row so far, level by level: a record of each further file, or that there is none.
ghost use Rattle.std.specs.Prelude.{◌≡◌, ◌++◌, ◌∷◌, [], ◌<◌, List, Option, Some, length, map, IfOk};
ghost use Rattle.std.specs.Option.{option_map};
ghost use Rattle.file_model.specs.Joins.{Match, JoinRow, image_in};
ghost use Rattle.join_rows.specs.Numbers.{row_by};
ghost use Rattle.join_rows.specs.Reading.{AreReadable, AreFed, IsLeft, left_list, leaf_numbers, found_below};

use crate::positions::{Left, place};
use crate::trials::{first_trial, image, key_in, left_below, next_trial, number};
use crate::wanted::wanted_key;
use access_path::path::Path;
use file_model::joins::Secondary;
use member_slots::members::Members;
use std::alloc::{AllocError, Global};

/// The number of each further file's record; none where defaults stand for it.
pub(crate) type Numbers = Vec<Option<u32>>;

/// What is the same at each level.
#[derive(Clone, Copy)]
pub(crate) struct Walk<'a> {
    pub(crate) members: &'a Members,
    pub(crate) keeps_missing: bool,
    /// The last row before a position is looked for, and not the first after it.
    pub(crate) back: bool,
}

/// The first row below a row so far after what is left of a position, or the last before it, by its numbers.
pub(crate) fn found_below<'a>(
    alloc: Global,
    walk: Walk<'a>,
    files: &'a [Secondary],
    paths: &'a [&'a Path],
    left: Left<'_>,
    images: &[&'a [u8]],
) -> Result<Option<Numbers>, AllocError>
    requires readable { AreReadable walk.members.now.members (length images.now) files.now (map (λ path. path.now) paths.now) }
    requires fed { AreFed (map (λ image. image.now) images.now) files.now }
    ensures { (row : JoinRow) (from : Option (List Match)) → row.images ≡ map (λ image. image.now) images.now → IsLeft files.now (left_list left.entry) from
        → IfOk result (λ found. option_map (row_by walk.entry.members.now.members files.now row) (option_map (λ numbers. numbers.items) found)
        ≡ found_below walk.entry.back walk.entry.keeps_missing walk.entry.members.now.members files.now row from) }
{
    let [file, further @ ..] = files else {
        return Ok(leaf(alloc, left));
    };
    let [path, others @ ..] = paths else {
        return Ok(None);
    };
    let path = *path;
    path.pages().in_order();
    let wanted = wanted_key(alloc, file.pairs.as_slice(), image_from(images, file.from))?;
    let sought = &wanted;
    let key = key_in(alloc, sought, place(left))?;
    let place_key = key.as_slice();
    let mut at = first_trial(
        walk.back,
        walk.keeps_missing,
        path,
        sought,
        place(left),
        place_key,
    );
    while let Some(trial) = at {
        let more = with_image(alloc, images, image(walk.members, file, trial))?;
        let below = left_below(left, place_key, trial);
        let found = found_below(alloc, walk, further, others, below, more.as_slice())?;
        if let Some(numbers) = found {
            let all = with_number(number(trial), numbers)?;
            return Ok(Some(all));
        }
        at = next_trial(walk.back, path, sought, trial);
    }
    Ok(None)
}

// Below the last file stands the row itself, unless it is that of the position.
fn leaf(alloc: Global, left: Left<'_>) -> Option<Numbers>
    ensures { option_map (λ numbers. numbers.items) result ≡ leaf_numbers (left_list left.entry) }
{
    match left {
        Left::Nothing => Some(Vec::new(alloc)),
        Left::Places(_) => None,
    }
}

fn with_number(number: Option<u32>, numbers: Numbers) -> Result<Numbers, AllocError>
    ensures { IfOk result (λ all. all.items ≡ number ∷ numbers.items) }
{
    let mut all = numbers;
    all.insert(0, number)?;
    Ok(all)
}

// The image of a file of the row so far.
fn image_from<'a>(images: &[&'a [u8]], file: u32) -> &'a [u8]
    requires { file < length images.now }
    ensures { result.now ≡ image_in file (map (λ image. image.now) images.now) }
{
    images[file as usize]
}

fn with_image<'a>(
    alloc: Global,
    images: &[&'a [u8]],
    image: &'a [u8],
) -> Result<Vec<&'a [u8]>, AllocError>
    ensures { IfOk result (λ more. map (λ image. image.now) more.items ≡ map (λ image. image.now) images.now ++ image.now ∷ []) }
{
    let mut more = Vec::from_slice(alloc, images)?;
    more.push(image)?;
    Ok(more)
}
