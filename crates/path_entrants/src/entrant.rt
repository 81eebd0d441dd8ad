//! The formats of a path specification, as `access_path` asks about them.
ghost use Rattle.std.specs.Prelude.{◌≡◌, ◌≤◌, IfOk, IfSome, length, slice_get};
ghost use Rattle.access_path.specs.PathBytes.{format_key, members_of};
ghost use Rattle.path_entrants.specs.Formats.{IsAskable, CanBeAsked, keys_of};

use access_path::entrant::Entrant;
use access_path::key_order::encoding::encode;
use key_pages::Key;
use std::alloc::{AllocError, Global};
use std::marker::Model;
use view_rules::file_model::paths::{PathFormat, PathSpec};
use view_rules::selection::selects;
use view_rules::viewing::view;

/// How many formats a path can have: an entry has the number of its format in two bytes.
pub const MOST_FORMATS: usize = 65_535;

/// A path specification that can be asked which records are in the path, and under which keys. Contracts see it as the
/// specification.
#[derive(Drop)]
pub struct SpecEntrant {
    spec: PathSpec,
}

impl Model for SpecEntrant {
    ghost use Rattle.std.specs.Prelude.{◌≤◌, length};
    ghost use Rattle.view_rules.below.file_model.specs.declared.paths.PathSpec.{PathSpec};
    ghost use Rattle.path_entrants.specs.declared.entrant.TheConstants.{MOST_FORMATS};

    ghost Value = { PathSpec };

    ghost view = { λ e. e.spec };

    ghost invariant = { λ e. length e.spec.formats ≤ MOST_FORMATS };
}

impl SpecEntrant {
    pub fn new(spec: PathSpec) -> SpecEntrant
        requires { length spec.formats ≤ MOST_FORMATS }
        ensures { result ≡ spec }
    {
        SpecEntrant { spec }
    }

    pub fn spec(&self) -> &PathSpec
        ensures { result.now ≡ self.now }
    {
        &self.spec
    }
}

impl Entrant for SpecEntrant {
    ghost use Rattle.path_entrants.specs.Formats.{CanBeAsked, keys_of};
    ghost use Rattle.access_path.specs.PathBytes.{members_of};

    ghost keys = { λ spec. keys_of spec.formats };

    ghost takes = { λ spec. CanBeAsked spec.formats };

    ghost members = { λ spec. members_of spec.formats };

    fn formats(&self) -> u16 {
        self.spec.formats.as_slice().len() as u16
    }

    fn member(&self, format: u16) -> u32 {
        self.spec.formats.as_slice()[usize::from(format)].member
    }

    fn key(&self, alloc: Global, format: u16, image: &[u8]) -> Result<Option<Key>, AllocError> {
        match self.spec.formats.as_slice().get(usize::from(format)) {
            Some(format) => key_in(alloc, format, image),
            None => Ok(None),
        }
    }
}

/// The key that a format has of an image, where it selects it.
fn key_in(alloc: Global, format: &PathFormat, image: &[u8]) -> Result<Option<Key>, AllocError>
    requires { IsAskable format.now image.now }
    ensures { IfOk result (λ key. key ≡ format_key format.now image.now) }
{
    if !selects(&format.rules, image) {
        return Ok(None);
    }
    let shown = view(alloc, format.fields.as_slice(), image)?;
    Ok(Some(encode(alloc, format.key.as_slice(), &shown)?))
}
