//! The access paths of a logical file.
ghost use Rattle.std.specs.Prelude.{◌≡◌, ◌∷◌, ◌++◌, [], false, map, IfOk, OnOk};
ghost use Rattle.file_model.specs.FilePaths.{path_format};
ghost use Rattle.logical_laws.specs.FilePaths.{logical_paths, primary_path, ties_of_views, view_format, views_path};
ghost use Rattle.logical_paths.specs.Steps.{joined_paths, own_path, secondary_paths};

use crate::bases::BaseFiles;
use crate::copies::copied_rules;
use crate::joins::{every_record, secondary_path};
use crate::key_fields::{key_fields, shown_in_join, shown_of};
use dds_logical::join_views::JoinView;
use dds_logical::views::{LogicalSpec, View};
use field_types::lists::ListOf;
use file_model::paths::{PathFormat, PathSpec};
use file_model::rules::Rules;
use file_model::views::ViewField;
use key_spec::{KeySpec, Ties};
use member_paths::path_positions;
use std::alloc::{AllocError, Global};

/// The access paths of a logical file, its own first.
#[tactic(auto, using(crate::proofs::PathLemmas::paths_are))]
pub fn logical_paths<B: BaseFiles>(
    alloc: Global,
    bases: &B,
    spec: &LogicalSpec,
) -> Result<Vec<PathSpec>, AllocError>
    ensures { IfOk result (λ paths. paths.items ≡ logical_paths (B.bases bases.now) spec.now) }
{
    let mut paths = Vec::new(alloc);
    paths.push(own_path(alloc, bases, spec)?)?;
    add_secondaries(alloc, bases, spec, &mut paths)?;
    Ok(paths)
}

/// The path by which a logical file is read; of a join the primary file's.
pub fn own_path<B: BaseFiles>(
    alloc: Global,
    bases: &B,
    spec: &LogicalSpec,
) -> Result<PathSpec, AllocError>
    ensures { IfOk result (λ path. path ≡ own_path (B.bases bases.now) spec.now) }
{
    match spec {
        LogicalSpec::Simple(view) => simple_path(alloc, bases, view),
        LogicalSpec::Multi(views) => views_path(alloc, bases, false, views.as_slice()),
        LogicalSpec::Join(view) => primary_path(alloc, bases, view),
    }
}

/// The path of a file of one format.
fn simple_path<B: BaseFiles>(alloc: Global, bases: &B, view: &View) -> Result<PathSpec, AllocError>
    ensures { IfOk result (λ path. path ≡ views_path (B.bases bases.now) view.now.keys.unique (view.now ∷ [])) }
{
    let only = view_format(alloc, bases, view)?;
    let mut formats = ListOf::new(alloc);
    formats.push(only)?;
    Ok(PathSpec {
        formats,
        unique: view.keys.unique,
        ties: view.keys.ties,
    })
}

/// The formats of a file merged by their keys.
fn views_path<B: BaseFiles>(
    alloc: Global,
    bases: &B,
    unique: bool,
    views: &[View],
) -> Result<PathSpec, AllocError>
    ensures { IfOk result (λ path. path ≡ views_path (B.bases bases.now) unique views.now) }
{
    let formats = view_formats(alloc, bases, views)?;
    Ok(PathSpec {
        formats,
        unique,
        ties: ties_of_views(views),
    })
}

/// All formats of a file have its ties.
fn ties_of_views(views: &[View]) -> Ties
    ensures { result ≡ ties_of_views views.now }
{
    match views {
        [] => Ties::Rising,
        [view, ..] => view.keys.ties,
    }
}

#[tactic(auto, using(crate::proofs::PathLemmas::joined))]
fn view_formats<B: BaseFiles>(
    alloc: Global,
    bases: &B,
    views: &[View],
) -> Result<ListOf<PathFormat>, AllocError>
    ensures { IfOk result (λ formats. formats ≡ map (view_format (B.bases bases.now)) views.now) }
{
    let mut formats = ListOf::new(alloc);
    for view in views {
        formats.push(view_format(alloc, bases, view)?)?;
    }
    Ok(formats)
}

/// A format in its file's path.
fn view_format<B: BaseFiles>(
    alloc: Global,
    bases: &B,
    view: &View,
) -> Result<PathFormat, AllocError>
    ensures { IfOk result (λ format. format ≡ view_format (B.bases bases.now) view.now) }
{
    let shown = shown_of(alloc, view.mapping.as_slice())?;
    let rules = copied_rules(alloc, &view.rules)?;
    path_format(
        alloc,
        bases.member(&view.base),
        rules,
        shown.as_slice(),
        &view.keys,
    )
}

/// A format of a path: over this member, of a file's format whose positions are those of the key.
fn path_format(
    alloc: Global,
    member: u32,
    rules: Rules,
    shown: &[ViewField],
    keys: &KeySpec,
) -> Result<PathFormat, AllocError>
    ensures { IfOk result (λ format. format ≡ path_format member rules shown.now keys.now.parts) }
{
    let key = path_positions(alloc, keys)?;
    let fields = key_fields(alloc, shown, keys.parts.as_slice())?;
    Ok(PathFormat {
        member,
        rules,
        fields,
        key,
    })
}

/// The path of a join's primary file, by the key fields of the join.
pub(crate) fn primary_path<B: BaseFiles>(
    alloc: Global,
    bases: &B,
    view: &JoinView,
) -> Result<PathSpec, AllocError>
    ensures { IfOk result (λ path. path ≡ primary_path (B.bases bases.now) view.now) }
{
    let shown = shown_in_join(alloc, view.fields.as_slice())?;
    let only = path_format(
        alloc,
        bases.member(&view.primary),
        every_record(alloc),
        shown.as_slice(),
        &view.keys,
    )?;
    let mut formats = ListOf::new(alloc);
    formats.push(only)?;
    Ok(PathSpec {
        formats,
        unique: view.keys.unique,
        ties: view.keys.ties,
    })
}

/// Adds the paths over the secondary files, where the file is a join.
fn add_secondaries<B: BaseFiles>(
    alloc: Global,
    bases: &B,
    spec: &LogicalSpec,
    paths: &mut Vec<PathSpec>,
) -> Result<(), AllocError>
    ensures { OnOk result (paths.new.items ≡ paths.old.items ++ secondary_paths (B.bases bases.now) spec.now) }
{
    match spec {
        LogicalSpec::Simple(_) | LogicalSpec::Multi(_) => Ok(()),
        LogicalSpec::Join(view) => add_joined(alloc, bases, view, paths),
    }
}

#[tactic(auto, using(crate::proofs::PathLemmas::joined))]
fn add_joined<B: BaseFiles>(
    alloc: Global,
    bases: &B,
    view: &JoinView,
    paths: &mut Vec<PathSpec>,
) -> Result<(), AllocError>
    ensures { OnOk result (paths.new.items ≡ paths.old.items ++ joined_paths (B.bases bases.now) view.now.secondaries) }
{
    for joined in view.secondaries.as_slice() {
        paths.push(secondary_path(alloc, bases.member(&joined.file), joined)?)?;
    }
    Ok(())
}
