//! The files of the library in order of creation, found by their names and by their members' numbers, with room for more.
ghost use Rattle.std.specs.Prelude.{List, ℕ, ◌≡◌, ◌≤◌, ◌<◌, None, Some, [], ◌∷◌, ◌++◌, length, map, nat_eq, OnOk, IfOk, IfSome, IsSome, option_copied, slice_get};
ghost use Rattle.std.specs.List.{AllByRecursion, IsDistinct};
ghost use Rattle.std.specs.Map.{keys_of};
ghost use Rattle.std.specs.Map.Iter.{ShowsInOrder, deref_pair};
ghost use Rattle.std.specs.Option.{option_map, option_and_then};
ghost use Rattle.library_model.specs.Named.{named, same_name};
ghost use Rattle.lawful_states.below.library_steps.specs.declared.limits.TheConstants.{MOST_MEMBERS};
ghost use Rattle.lawful_states.specs.State.{FileState, physical_in, status_changed};
ghost use Rattle.lawful_states.specs.DeleteFile.{first_dependent, without_file};
ghost use Rattle.lawful_states.specs.MemberCommands.{file_changed, with_member_name, renumbered};
ghost use Rattle.lawful_states.specs.Journaling.{journaled_from, no_longer_journaled};
ghost use Rattle.lawful_states.specs.SlotChange.{status_among, touched};
ghost use Rattle.lawful_states.specs.LogicalFiles.{bases_in};
ghost use Rattle.record_fmt.specs.Layout.{IsLaidOut};
ghost use Rattle.lawful_states.specs.Statuses.{after};
ghost use Rattle.lawful_states.specs.Owners.{AreApart, numbers_of, owner, status_of};
ghost use Rattle.lawful_states.specs.Physical.{IsPhysical};
ghost use Rattle.file_catalogue.specs.Keyed.{AllAreKeyed};
ghost use Rattle.file_catalogue.specs.OwnMembers.{LogicalHaveNone};

use crate::described::Described;
use crate::files::{File, no_fields};
use crate::owners::{add_owned, remove_owned};
use crate::status::MemberStatus;
use dds_physical::{PhysicalSpec, Refs};
use entry_codec::Images;
use field_types::names::Name;
use indexmap::IndexMap;
use indexmap::map::Iter;
use lawful_states::changes::StatusChange;
use logical_model::dds_logical::Bases;
use record_fmt::formats::{Field, Format};
use std::alloc::{AllocError, Global};
use std::marker::Model;

/// The files in order of creation, and the file of each member.
#[derive(Drop)]
pub struct Catalogue {
    files: IndexMap<Name, File>,
    /// The names of the members' files, by the members' numbers.
    owners: IndexMap<u32, Name>,
}

impl Model for Catalogue {
    ghost use Rattle.std.specs.Prelude.{nat_eq};
    ghost use Rattle.indexmap.specs.IndexMap.{get, spare};
    ghost use Rattle.file_catalogue.specs.Parts.{Files};
    ghost use Rattle.lawful_states.specs.Owners.{IsOwned};
    ghost use Rattle.file_catalogue.specs.Keyed.{HaveOwnKeys};
    ghost use Rattle.file_catalogue.specs.OwnMembers.{HaveOwnMembers};

    ghost Value = { Files };

    ghost view = { λ c. record { files = c.files.entries; room = spare c.files; member_room = spare c.owners } };

    ghost invariant = { λ c. IsOwned c.files.entries (get nat_eq c.owners) × HaveOwnKeys c.files.entries × HaveOwnMembers c.files.entries };
}

impl Catalogue {
    /// No files.
    pub fn new(alloc: Global) -> Catalogue
        ensures { result.files ≡ [] }
    {
        Catalogue {
            files: IndexMap::new(alloc),
            owners: IndexMap::new(alloc),
        }
    }

    /// How many files there are. No two of them have one name, and no two members one number. The keys of physical files are
    /// by their fields, and a logical file has no members.
    pub fn len(&self) -> usize
        ensures value { result ≡ length self.now.files }
        ensures unique { IsDistinct same_name (keys_of self.now.files) }
        ensures apart { AreApart self.now.files }
        ensures keyed { AllAreKeyed self.now.files }
        ensures none { LogicalHaveNone self.now.files }
    {
        self.files.len()
    }

    /// The file at a place in the order of creation, counted from 0.
    pub fn at(&self, place: usize) -> Option<(&Name, &File)>
        ensures { option_map deref_pair result ≡ slice_get self.now.files place }
    {
        self.files.get_index(place)
    }

    /// The files in order of creation.
    pub fn iter(&self) -> Iter<'_, Name, File>
        ensures rest { result ≡ self.now.files }
        ensures runs { ShowsInOrder (deref_pair {K = List ℕ} {X = FileState}) }
    {
        self.files.iter()
    }

    /// The file of that name.
    pub fn named(&self, name: &Name) -> Option<&File>
        ensures { option_copied result ≡ named name.now self.now.files }
    {
        self.files.get(name)
    }

    /// What the file of that name is where it is a physical file.
    pub fn physical_named(&self, name: &Name) -> Option<&Described>
        ensures { option_map (λ described. described.spec) (option_copied result) ≡ option_and_then (λ file. physical_in file.spec) (named name.now self.now.files) }
    {
        match self.named(name) {
            Some(file) => file.physical(),
            None => None,
        }
    }

    /// What a logical file needs of the physical file of that name: the number of its member of this name, and its fields. Where
    /// there is none, 0 and no fields.
    pub fn base_of(&self, name: &Name) -> (u32, &[Field])
        ensures member { result.0 ≡ (bases_in self.now.files name.now).member }
        ensures fields { result.1.now ≡ (bases_in self.now.files name.now).fields }
        ensures laid_out { IsLaidOut result.1.now }
    {
        match self.named(name) {
            Some(file) => file.base(name),
            None => (0, no_fields()),
        }
    }

    /// The name of the file that has the member with that number.
    pub fn owner(&self, number: u32) -> Option<Name>
        ensures value { result ≡ owner number self.now.files }
        ensures status { option_and_then (λ name. status_of number (named name self.now.files)) result ≡ status_among number self.now.files }
    {
        // No two files have one name.
        let _len = self.files.len();
        let Some(name) = self.owners.get(&number) else {
            return None;
        };
        if self.member_in(name, number).is_none() {
            return None;
        }
        Some(*name)
    }

    /// The status of the member with that number.
    pub fn member(&self, number: u32) -> Option<MemberStatus>
        ensures { result ≡ status_among number self.now.files }
    {
        match self.owner(number) {
            Some(file) => self.member_in(&file, number),
            None => None,
        }
    }

    /// The status of the member with that number, where the file has it.
    fn member_in(&self, file: &Name, number: u32) -> Option<MemberStatus>
        ensures { result ≡ status_of number (named file.now self.now.files) }
    {
        match self.files.get(file) {
            Some(file) => file.numbered(number),
            None => None,
        }
    }

    /// The first file, by creation, that depends on that file. It looks at every source.
    pub fn first_dependent(&self, name: &Name) -> Option<Name>
        ensures { result ≡ first_dependent name.now self.now.files }
    {
        for (other, file) in self.iter() {
            if file.refers_to(name) {
                return Some(*other);
            }
        }
        None
    }

    /// Makes room for one file more, with one member.
    pub fn make_room(&mut self) -> Result<(), AllocError>
        ensures unchanged { self.new.files ≡ self.old.files }
        ensures room { OnOk result (1 ≤ self.new.room) }
        ensures member_room { OnOk result (1 ≤ self.new.member_room) }
    {
        self.files.reserve(1)?;
        self.owners.reserve(1)?;
        Ok(())
    }

    /// Makes room for one member more.
    pub fn make_member_room(&mut self) -> Result<(), AllocError>
        ensures unchanged { self.new.files ≡ self.old.files }
        ensures room { OnOk result (1 ≤ self.new.member_room) }
        ensures kept { self.old.room ≤ self.new.room }
    {
        self.owners.reserve(1)?;
        Ok(())
    }

    /// Adds a file at the end.
    pub fn add(&mut self, name: Name, file: File)
        requires absent { named name self.old.files ≡ None }
        requires fresh { AllByRecursion (λ entry. status_among entry.1.number self.old.files ≡ None) file.members }
        requires apart { IsDistinct nat_eq (numbers_of file.members) }
        requires room { 1 ≤ self.old.room }
        requires member_room { length file.members ≤ self.old.member_room }
        ensures { self.new.files ≡ self.old.files ++ (name, file) ∷ [] }
    {
        // The key of a physical file is by its fields, and a logical file has no members.
        let _described = file.described();
        add_owned(&mut self.owners, name, file.members());
        let _replaced = self.files.insert(name, file).unwrap();
    }

    /// Takes a file out; the others keep their order.
    pub fn remove(&mut self, name: &Name) -> File
        requires { IsSome (named name.now self.old.files) }
        ensures file { named name.now self.old.files ≡ Some result }
        ensures removed { self.new.files ≡ without_file name.now self.old.files }
    {
        // No two files have one name.
        let _len = self.files.len();
        let file = self.files.shift_remove(name).unwrap();
        remove_owned(&mut self.owners, file.members());
        file
    }

    /// Adds a member to a physical file.
    pub fn add_member(&mut self, file: &Name, member: Name, number: u32)
        requires there { IsSome (named file.now self.old.files) }
        requires few { IfSome (named file.now self.old.files) (λ f. length f.members < MOST_MEMBERS) }
        requires physical { IfSome (named file.now self.old.files) (λ f. IsPhysical f.spec) }
        requires fresh { status_among number self.old.files ≡ None }
        requires room { 1 ≤ self.old.member_room }
        ensures { self.new.files ≡ file_changed file.now (with_member_name member number) self.old.files }
    {
        let _replaced = self.owners.insert(number, *file).unwrap();
        self.files.get_mut(file).unwrap().add_member(member, number);
    }

    /// A record of the member was changed.
    pub fn touch(&mut self, number: u32)
        ensures files { self.new.files ≡ map (λ entry. (entry.0, status_changed number touched entry.1)) self.old.files }
        ensures room { (self.new.room ≡ self.old.room) × (self.new.member_room ≡ self.old.member_room) }
    {
        self.change(number, StatusChange::Touched);
    }

    /// The member's records have lost their numbers.
    pub fn renumbered(&mut self, number: u32, sequence: u64)
        ensures files { self.new.files ≡ map (λ entry. (entry.0, status_changed number (renumbered sequence) entry.1)) self.old.files }
        ensures room { (self.new.room ≡ self.old.room) × (self.new.member_room ≡ self.old.member_room) }
    {
        self.change(number, StatusChange::Renumbered { sequence });
    }

    /// The member is journaled from that sequence on.
    pub fn journaled(&mut self, number: u32, sequence: u64, images: Images)
        ensures files { self.new.files ≡ map (λ entry. (entry.0, status_changed number (journaled_from sequence images) entry.1)) self.old.files }
        ensures room { (self.new.room ≡ self.old.room) × (self.new.member_room ≡ self.old.member_room) }
    {
        self.change(number, StatusChange::Journaled { sequence, images });
    }

    /// The member is no longer journaled. It had so many records then.
    pub fn unjournaled(&mut self, number: u32, sequence: u64, records: u32)
        ensures files { self.new.files ≡ map (λ entry. (entry.0, status_changed number (no_longer_journaled sequence records) entry.1)) self.old.files }
        ensures room { (self.new.room ≡ self.old.room) × (self.new.member_room ≡ self.old.member_room) }
    {
        self.change(number, StatusChange::Unjournaled { sequence, records });
    }

    fn change(&mut self, number: u32, change: StatusChange)
        ensures files { self.new.files ≡ map (λ entry. (entry.0, status_changed number (after change) entry.1)) self.old.files }
        ensures room { (self.new.room ≡ self.old.room) × (self.new.member_room ≡ self.old.member_room) }
    {
        let Some(owner) = self.owner(number) else {
            return;
        };
        self.files.get_mut(&owner).unwrap().change(number, change);
    }
}

impl Refs for Catalogue {
    ghost formats = { λ c name. option_map (λ spec. spec.format) (option_and_then (λ file. physical_in file.spec) (named name c.files)) };

    fn format_of(&self, file: &Name) -> Option<&Format> {
        match self.named(file) {
            Some(file) => file.format(),
            None => None,
        }
    }
}

impl Bases for Catalogue {
    ghost bases = { λ c name. option_and_then (λ file. physical_in file.spec) (named name c.files) };

    fn base(&self, file: &Name) -> Option<&PhysicalSpec> {
        match self.physical_named(file) {
            Some(described) => Some(described.spec()),
            None => None,
        }
    }
}
