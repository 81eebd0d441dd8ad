//! One file or one member more, as the journal leaves it.
ghost use Rattle.std.specs.Prelude.{◌≡◌, ◌≤◌, ◌&&◌, None, Some, Ok, true, IfOk, OnOk};
ghost use Rattle.std.specs.Str.{bytes_eq};
ghost use Rattle.std.specs.Option.{is_some};
ghost use Rattle.entry_codec.specs.declared.kinds.FileKind.TheVariants.{Logical, Physical};
ghost use Rattle.logical_model.specs.Bases.{base_members};
ghost use Rattle.library_model.specs.Named.{named};
ghost use Rattle.library_model.specs.declared.limits.TheConstants.{LAST_MEMBER};
ghost use Rattle.library_steps.specs.CreateLogicalFile.{logical_described};
ghost use Rattle.library_steps.specs.CreatePhysicalFile.{formats_of};
ghost use Rattle.library_steps.specs.LogicalFiles.{bases_of};
ghost use Rattle.library_steps.specs.State.{file_named, memory_of, physical_among};
ghost use Rattle.library_steps.specs.Uses.{changer_of_any};
ghost use Rattle.library_parts.specs.Files.{IsNewMember};
ghost use Rattle.replay_members.specs.Bodies.{held};
ghost use Rattle.restarted_library.specs.Steps.{AddsFile, AddsMember, AddsOwner, IsFileOf, IsViewOf};

use crate::filling::finish;
use dds_logical::{LogicalFault, LogicalSpec};
use field_types::names::Name;
use field_types::texts::SourceText;
use file_catalogue::{Described, DescribedView, File};
use library_model::limits::LAST_MEMBER;
use library_model::requests::FileMember;
use library_parts::{Contents, Stop};
use library_steps::limits::MOST_MEMBERS;
use replay_members::Member;
use std::alloc::AllocError;

// ---- numbers

/// The next member has this number, where no member that is there has it or one above.
pub(crate) fn raise(contents: &mut Contents, number: u32) -> Result<(), AllocError>
    ensures state { OnOk result (contents.new.state ≡ record contents.old.state { next_member = number }) }
    ensures risen { OnOk result (contents.old.state.next_member ≤ number) }
{
    let (_, next) = contents.counts();
    if number < next {
        return Err(AllocError);
    }
    contents.pass_numbers(number);
    Ok(())
}

/// The same of a number that a member may have.
fn pass_to(contents: &mut Contents, number: u32) -> Result<(), AllocError>
    ensures state { OnOk result (contents.new.state ≡ record contents.old.state { next_member = number }) }
    ensures risen { OnOk result (contents.old.state.next_member ≤ number) }
    ensures few { OnOk result (number ≤ LAST_MEMBER) }
{
    if number > LAST_MEMBER {
        return Err(AllocError);
    }
    raise(contents, number)?;
    Ok(())
}

// ---- members

/// One member more, of a file that is there.
pub(crate) fn put_member(
    contents: &mut Contents,
    number: u32,
    member: &Member,
) -> Result<(), AllocError>
    ensures { OnOk result (AddsMember contents.old.state contents.new.state (held (number, member.now))) }
{
    pass_to(contents, number)?;
    contents.reserve_member()?;
    let args = FileMember {
        file: member.file(),
        member: member.name(),
    };
    let _file = file_to_extend(contents, &args)?;
    contents.add_member(&args)?;
    finish(contents, number, member)?;
    Ok(())
}

/// The physical file that the member may be added to.
fn file_to_extend<'a>(contents: &'a Contents, args: &FileMember) -> Result<&'a File, AllocError>
    requires { contents.now.state.next_member ≤ LAST_MEMBER }
    ensures there { IfOk result (λ file. named args.now.file contents.now.state.files ≡ Some file.now) }
    ensures new { OnOk result (IsNewMember contents.now.state args.now) }
{
    let file = physical_named(contents, &args.file)?;
    if file.members().len() >= MOST_MEMBERS {
        return Err(AllocError);
    }
    Ok(file)
}

fn physical_named<'a>(contents: &'a Contents, name: &Name) -> Result<&'a File, AllocError>
    ensures { IfOk result (λ file. physical_among name.now contents.now.state.files ≡ Some file.now) }
{
    match contents.physical_file(name) {
        Ok(file) => Ok(file),
        Err(_) => Err(AllocError),
    }
}

// ---- physical files

/// One physical file more, with its first member, which has its name.
pub(crate) fn put_physical(
    contents: &mut Contents,
    name: Name,
    source: &SourceText,
    number: u32,
    member: &Member,
) -> Result<(), AllocError>
    ensures { OnOk result (AddsOwner contents.old.state contents.new.state Physical name source.now (held (number, member.now))) }
{
    may_begin(contents, &name, member)?;
    pass_to(contents, number)?;
    let described = file_of(contents, source)?;
    contents.reserve_file()?;
    let file = File::new(contents.alloc(), described, name, number)?;
    contents.add_file(name, file)?;
    finish(contents, number, member)?;
    Ok(())
}

/// The name is new, and the member has it and is of that file.
fn may_begin(contents: &Contents, name: &Name, member: &Member) -> Result<(), AllocError>
    ensures own { OnOk result ((bytes_eq member.now.file name.now && bytes_eq member.now.name name.now) ≡ true) }
    ensures absent { OnOk result (named name.now contents.now.state.files ≡ None) }
{
    if !is_own(member, name) {
        return Err(AllocError);
    }
    if has_file(contents, name) {
        return Err(AllocError);
    }
    Ok(())
}

fn is_own(member: &Member, name: &Name) -> bool
    ensures { result ≡ (bytes_eq member.now.file name.now && bytes_eq member.now.name name.now) }
{
    member.file() == *name && member.name() == *name
}

fn has_file(contents: &Contents, name: &Name) -> bool
    ensures { result ≡ is_some (file_named name.now (memory_of contents.now.state)) }
{
    match contents.file(name) {
        Ok(_) => true,
        Err(_) => false,
    }
}

/// What the source describes beside the files that are there.
fn file_of(contents: &Contents, source: &SourceText) -> Result<Described, AllocError>
    ensures { IfOk result (λ new. IsFileOf (formats_of (memory_of contents.now.state)) source.now new) }
{
    match contents.describe(source) {
        Ok(described) => Ok(described),
        Err(_) => Err(AllocError),
    }
}

// ---- logical files

/// One logical file more. Where its source describes none beside the files that are there, it is left out.
pub(crate) fn put_view(
    contents: &mut Contents,
    name: Name,
    source: &SourceText,
) -> Result<(), AllocError>
    ensures { OnOk result (AddsFile contents.old.state contents.new.state Logical name source.now) }
{
    let found = view_of(contents, source)?;
    match found {
        Some(view) => {
            put_described(contents, name, view)?;
            Ok(())
        }
        None => Ok(()),
    }
}

/// The logical file that the source describes beside the files that are there, where it does.
fn view_of(contents: &Contents, source: &SourceText) -> Result<Option<DescribedView>, AllocError>
    ensures { IfOk result (λ view. IsViewOf (memory_of contents.now.state) source.now view) }
{
    match contents.describe_view(source) {
        Ok(view) => Ok(Some(view)),
        Err(LogicalFault::NoMemory) => Err(AllocError),
        Err(LogicalFault::Fault(_)) => Ok(None),
    }
}

fn put_described(contents: &mut Contents, name: Name, view: DescribedView) -> Result<(), AllocError>
    requires { logical_described (memory_of contents.old.state) view.source ≡ Ok view.spec }
    ensures { OnOk result (AddsFile contents.old.state contents.new.state Logical name view.source) }
{
    match add_described(contents, name, view) {
        Ok(()) => Ok(()),
        Err(_) => Err(AllocError),
    }
}

fn add_described(contents: &mut Contents, name: Name, view: DescribedView) -> Result<(), Stop>
    requires { logical_described (memory_of contents.old.state) view.source ≡ Ok view.spec }
    ensures { OnOk result (AddsFile contents.old.state contents.new.state Logical name view.source) }
{
    may_stand(contents, &name, view.spec())?;
    contents.reserve_file()?;
    contents.add_view(name, view)?;
    Ok(())
}

/// The name is new, and no open commit cycle has changed a record under it.
fn may_stand(contents: &Contents, name: &Name, view: &LogicalSpec) -> Result<(), AllocError>
    ensures absent { OnOk result (named name.now contents.now.state.files ≡ None) }
    ensures unchanged { OnOk result (changer_of_any (base_members (bases_of (memory_of contents.now.state)) view.now) (memory_of contents.now.state) ≡ None) }
{
    if has_file(contents, name) {
        return Err(AllocError);
    }
    if let Some(_) = contents.changer_under(view) {
        return Err(AllocError);
    }
    Ok(())
}
