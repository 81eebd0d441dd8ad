//! What a file is by its data description: a physical file, or a logical one over such.
ghost use Rattle.std.specs.Prelude.{◌≡◌, option_copied};
ghost use Rattle.std.specs.Option.{option_map};
ghost use Rattle.library_model.specs.Named.{Named};
ghost use Rattle.lawful_states.specs.State as state;
ghost use Rattle.lawful_states.specs.DeleteFile.{file_refers};
ghost use Rattle.file_catalogue.specs.Bodies.{source_in, spec_in, made_of, logical_in, kind_in};

use crate::described::Described;
use crate::views::DescribedView;
use entry_codec::FileKind;
use field_types::names::Name;
use field_types::texts::SourceText;
use logical_model::dds_logical::LogicalSpec;
use record_fmt::formats::Format;

/// A data description, and what it describes.
#[derive(Drop)]
pub enum FileBody {
    /// The file holds records.
    Physical(Described),
    /// The file shows records of physical files.
    Logical(DescribedView),
}

impl FileBody {
    /// The text of the source.
    pub fn source(&self) -> &SourceText
        ensures { result.now ≡ source_in self.now }
    {
        match self {
            FileBody::Physical(described) => described.source(),
            FileBody::Logical(view) => view.source(),
        }
    }

    /// Whether the file holds records.
    pub fn kind(&self) -> FileKind
        ensures { result ≡ kind_in (spec_in self.now) }
    {
        match self {
            FileBody::Physical(_) => FileKind::Physical,
            FileBody::Logical(_) => FileKind::Logical,
        }
    }

    /// The physical file, if it is one.
    pub fn physical(&self) -> Option<&Described>
        ensures { option_map (λ described. described.spec) (option_copied result) ≡ state.physical_in (spec_in self.now) }
    {
        match self {
            FileBody::Physical(described) => Some(described),
            FileBody::Logical(_) => None,
        }
    }

    /// The logical file, if it is one.
    pub fn logical(&self) -> Option<&LogicalSpec>
        ensures { option_copied result ≡ logical_in (spec_in self.now) }
    {
        match self {
            FileBody::Physical(_) => None,
            FileBody::Logical(view) => Some(view.spec()),
        }
    }

    /// The format of the records that the file holds, to which REF may refer.
    pub fn format(&self) -> Option<&Format>
        ensures { option_copied result ≡ option_map (λ spec. spec.format) (state.physical_in (spec_in self.now)) }
    {
        match self {
            FileBody::Physical(described) => Some(described.format()),
            // What it shows is no format of its own records.
            FileBody::Logical(_view) => None,
        }
    }

    /// Whether the file depends on the one of this name: by its source's REF or REFFLD, or by standing over it.
    pub fn refers_to(&self, file: &Name) -> bool
        ensures { (members : Named state.MemberStatus) → result ≡ file_refers file.now (made_of self.now members) }
    {
        match self {
            FileBody::Physical(described) => described.refers_to(file),
            FileBody::Logical(view) => view.is_over(file),
        }
    }
}
