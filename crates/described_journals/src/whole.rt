//! All files of a journal, each described beside those before it.
ghost use Rattle.std.specs.Prelude.{◌≡◌, [], ◌∷◌, IfOk, OnOk};
ghost use Rattle.named_bases.specs.Sources.{described_files};
ghost use Rattle.described_journals.specs.Files.{described_upon};
ghost use Rattle.described_journals.specs.Needed.{found};

use crate::described::DescribedFiles;
use replay_files::Files;
use std::alloc::{AllocError, Global};

/// The files with what their sources describe, each beside those before it, in order of creation. One with whose source something is wrong is left out.
pub fn described_files(alloc: Global, files: &Files) -> Result<DescribedFiles, AllocError>
    ensures { IfOk result (λ described. described ≡ described_files files.now) }
{
    let mut described = DescribedFiles::new(alloc);
    let count = files.len();
    let mut place = 0;
    while place < count {
        add_at(alloc, files, place, &mut described)?;
        place += 1;
    }
    Ok(described)
}

/// The file at this place more.
pub(crate) fn add_at(
    alloc: Global,
    files: &Files,
    place: usize,
    described: &mut DescribedFiles,
) -> Result<(), AllocError>
    ensures { OnOk result (described.new ≡ described_upon described.old (found files.now (place ∷ []))) }
{
    match files.at(place) {
        None => Ok(()),
        Some((name, file)) => described.add(alloc, name, file),
    }
}
