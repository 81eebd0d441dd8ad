//! DLTF.
ghost use Rattle.std.specs.Prelude.{◌≡◌, ◌≤◌, Some, None, [], ◌∷◌, IfOk, IsSome, IsTrue, OnOk};
ghost use Rattle.library_model.specs.Named.{named};
ghost use Rattle.library_steps.specs.declared.limits.TheConstants.{LAST_SEQUENCE};
ghost use Rattle.library_steps.specs.State.{FileState, job_at, memory_of};
ghost use Rattle.library_steps.specs.History.{is_running};
ghost use Rattle.library_steps.specs.DeleteFile.{delete_file, delete_plan, deleted, first_dependent, user_by};
ghost use Rattle.library_parts.specs.Answers.{Answers, Shows};
ghost use Rattle.library_parts.specs.PathChanges.{ArePathsOfView};
ghost use Rattle.file_requests.specs.Effects.{Deposits};

use entry_codec::{Draft, EntryKind};
use library_model::replies::Reply;
use library_model::requests::DeleteFile;
use library_parts::file_catalogue::File;
use library_parts::{Author, Contents, Stop, may_deposit, with_room};

/// Deletes a file, a physical one with its members.
pub fn delete_file(
    contents: &mut Contents,
    job: u32,
    timestamp: u64,
    args: &DeleteFile,
) -> Result<Reply, Stop>
    requires running { IsTrue (is_running (job_at job contents.old.state.jobs)) }
    ensures answers { Answers contents.old.state contents.new.state result (delete_file (memory_of contents.old.state) job timestamp args.now) }
{
    let _file = plan_delete(contents, args)?;
    let author = Author::of(contents, job, timestamp);
    let kind = EntryKind::FileDeleted { name: args.file };
    let draft = with_room(contents, author.library_draft(kind))?;
    let paths = contents.view_paths(&args.file)?;
    apply_delete(contents, args, paths.as_slice(), draft);
    Ok(Reply::Done)
}

#[tactic(auto, unfolding(library_steps::specs::DeleteFile::delete_plan))]
fn plan_delete<'a>(contents: &'a Contents, args: &DeleteFile) -> Result<&'a File, Stop>
    ensures plan { Shows result (delete_plan (memory_of contents.now.state) args.now) }
    ensures there { IfOk result (λ file. named args.now.file contents.now.state.files ≡ Some file.now) }
    ensures alone { OnOk result (first_dependent args.now.file contents.now.state.files ≡ None) }
    ensures unused { IfOk result (λ file. user_by file.now.spec args.now.file file.now (memory_of contents.now.state) ≡ None) }
    ensures left { OnOk result ((memory_of contents.now.state).last_entry ≤ LAST_SEQUENCE) }
{
    may_deposit(contents)?;
    let file = contents.file(&args.file)?;
    if let Some(name) = contents.first_dependent(&args.file) {
        return Err(Stop::Refused(Reply::Dependents { name }));
    }
    if let Some(job) = contents.user_of_file(&args.file, file) {
        return Err(Stop::Refused(Reply::InUse { job }));
    }
    Ok(file)
}

fn apply_delete(contents: &mut Contents, args: &DeleteFile, paths: &[Option<u64>], draft: Draft)
    requires there { IsSome (named args.now.file contents.old.state.files) }
    requires alone { first_dependent args.now.file contents.old.state.files ≡ None }
    requires unused { (file : FileState) → named args.now.file contents.old.state.files ≡ Some file → user_by file.spec args.now.file file (memory_of contents.old.state) ≡ None }
    requires paths { ArePathsOfView contents.old args.now.file paths.now }
    requires room { 1 ≤ contents.old.room.entries }
    requires left { (memory_of contents.old.state).last_entry ≤ LAST_SEQUENCE }
    ensures { (file : FileState) → named args.now.file contents.old.state.files ≡ Some file → Deposits contents.old.state contents.new.state (draft ∷ []) (deleted args.now file) }
{
    let _file = contents.remove_file(args, paths);
    let _sequence = contents.deposit(draft);
}
