//! A file: its data description, and its members.
ghost use Rattle.std.specs.Prelude.{◌≡◌, ◌<◌, [], length, IfOk, option_copied};
ghost use Rattle.std.specs.Option.{option_map, option_map_or};
ghost use Rattle.record_fmt.specs.Layout.{IsLaidOut};
ghost use Rattle.library_model.specs.Named.{named};
ghost use Rattle.lawful_states.below.library_steps.specs.declared.limits.TheConstants.{MOST_MEMBERS};
ghost use Rattle.lawful_states.specs.State.{physical_in, if_physical, status_changed};
ghost use Rattle.lawful_states.specs.CreatePhysicalFile.{new_file};
ghost use Rattle.lawful_states.specs.CreateLogicalFile.{logical_file};
ghost use Rattle.lawful_states.specs.DeleteFile.{file_refers};
ghost use Rattle.lawful_states.specs.LogicalFiles.{base_in};
ghost use Rattle.lawful_states.specs.MemberCommands.{with_member_name};
ghost use Rattle.lawful_states.specs.SlotChange.{status_in};
ghost use Rattle.lawful_states.specs.Physical.{IsPhysical};
ghost use Rattle.file_catalogue.specs.Keyed.{HasOwnKey};
ghost use Rattle.file_catalogue.specs.Bodies.{source_in, spec_in, logical_in, kind_in};
ghost use Rattle.file_catalogue.specs.OwnMembers.{HasOwnMembers};
ghost use Rattle.lawful_states.specs.Statuses.{after};

use crate::bodies::FileBody;
use crate::described::Described;
use crate::members::Members;
use crate::status::MemberStatus;
use crate::views::DescribedView;
use entry_codec::FileKind;
use field_types::names::Name;
use field_types::texts::SourceText;
use lawful_states::changes::StatusChange;
use logical_model::dds_logical::LogicalSpec;
use record_fmt::formats::{Field, Format};
use std::alloc::{AllocError, Global};
use std::marker::Model;

/// A physical file, or a logical one.
#[derive(Drop)]
pub struct File {
    body: FileBody,
    /// A logical file has none of its own.
    members: Members,
}

impl Model for File {
    ghost use Rattle.lawful_states.specs.State.{FileState};
    ghost use Rattle.file_catalogue.specs.Keyed.{HasOwnKey};
    ghost use Rattle.file_catalogue.specs.Bodies.{spec_in, made_of};
    ghost use Rattle.file_catalogue.specs.OwnMembers.{HasOwnMembers};

    ghost Value = { FileState };

    ghost view = { λ f. made_of f.body f.members };

    ghost invariant = { λ f. HasOwnKey (spec_in f.body) × HasOwnMembers (spec_in f.body) f.members };
}

impl File {
    /// The physical file that a source describes, with a first member of that name and number.
    pub fn new(
        alloc: Global,
        described: Described,
        member: Name,
        number: u32,
    ) -> Result<File, AllocError>
        ensures { IfOk result (λ file. file ≡ new_file member number described) }
    {
        // Its key is by its fields.
        let _format = described.format();
        let members = Members::first(alloc, member, number)?;
        Ok(File {
            body: FileBody::Physical(described),
            members,
        })
    }

    /// The logical file that a source describes.
    pub fn over(alloc: Global, view: DescribedView) -> File
        ensures { result ≡ logical_file view }
    {
        File {
            body: FileBody::Logical(view),
            members: Members::none(alloc),
        }
    }

    /// The data description, and what it describes. A physical file's fields lie one behind another, and its key is by them.
    pub fn described(&self) -> &FileBody
        ensures source { source_in result.now ≡ self.now.source }
        ensures spec { spec_in result.now ≡ self.now.spec }
        ensures keyed { HasOwnKey self.now.spec }
        ensures members { HasOwnMembers self.now.spec self.now.members }
    {
        &self.body
    }

    /// The text of its source.
    pub fn source(&self) -> &SourceText
        ensures { result.now ≡ self.now.source }
    {
        self.body.source()
    }

    /// Whether it holds records.
    pub fn kind(&self) -> FileKind
        ensures { result ≡ kind_in self.now.spec }
    {
        self.body.kind()
    }

    /// What it is where it is a physical file.
    pub fn physical(&self) -> Option<&Described>
        ensures { option_map (λ described. described.spec) (option_copied result) ≡ physical_in self.now.spec }
    {
        self.body.physical()
    }

    /// What it is where it is a logical file.
    pub fn logical(&self) -> Option<&LogicalSpec>
        ensures { option_copied result ≡ logical_in self.now.spec }
    {
        self.body.logical()
    }

    /// The format of the records that it holds, to which REF may refer; a logical file holds none.
    pub fn format(&self) -> Option<&Format>
        ensures { option_copied result ≡ option_map (λ spec. spec.format) (physical_in self.now.spec) }
    {
        self.body.format()
    }

    /// What a logical file needs of it as its base, where that is its name: the number of its member of this name, and its
    /// fields. A logical file isn't one: 0, and none.
    pub fn base(&self, name: &Name) -> (u32, &[Field])
        ensures member { result.0 ≡ (base_in name.now (if_physical self.now.spec self.now)).member }
        ensures fields { result.1.now ≡ (base_in name.now (if_physical self.now.spec self.now)).fields }
        ensures laid_out { IsLaidOut result.1.now }
    {
        match self.physical() {
            Some(described) => (self.number_of(name), described.format().fields.as_slice()),
            None => (0, no_fields()),
        }
    }

    /// The number of the member of that name; 0 where there is none.
    fn number_of(&self, name: &Name) -> u32
        ensures { result ≡ option_map_or (λ status. status.number) (named name.now self.now.members) 0 }
    {
        match self.member(name) {
            Some(status) => status.number(),
            None => 0,
        }
    }

    /// The status of the member of that name.
    pub fn member(&self, name: &Name) -> Option<MemberStatus>
        ensures { result ≡ named name.now self.now.members }
    {
        self.members.named(name)
    }

    /// The status of the member with that number.
    pub fn numbered(&self, number: u32) -> Option<MemberStatus>
        ensures { result ≡ status_in number self.now.members }
    {
        self.members.numbered(number)
    }

    /// Its members.
    pub fn members(&self) -> &Members
        ensures { result.now ≡ self.now.members }
    {
        &self.members
    }

    /// Whether it depends on the file of that name: a physical file where its source names it in REF or REFFLD, a logical
    /// one where it is over it.
    pub fn refers_to(&self, file: &Name) -> bool
        ensures { result ≡ file_refers file.now self.now }
    {
        self.body.refers_to(file)
    }

    /// One member more, of a physical file.
    pub(crate) fn add_member(&mut self, member: Name, number: u32)
        requires few { length self.old.members < MOST_MEMBERS }
        requires physical { IsPhysical self.old.spec }
        ensures { self.new ≡ with_member_name member number self.old }
    {
        self.members.push(member, number);
    }

    /// Changes the status of the member with that number.
    pub(crate) fn change(&mut self, number: u32, change: StatusChange)
        ensures { self.new ≡ status_changed number (after change) self.old }
    {
        self.members.change(number, change);
    }
}

/// No fields, as a file has that isn't there.
pub(crate) fn no_fields() -> &'static [Field]
    ensures fields { result.now ≡ [] }
    ensures laid_out { IsLaidOut result.now }
{
    &[]
}
