//! Requests on files, members and records. The functions do nothing, and their contracts are the laws.

ghost use Rattle.std.specs.Prelude.{List};
ghost use Rattle.library_model.specs.declared.requests.CreateLogicalFile.{CreateLogicalFile};
ghost use Rattle.library_model.specs.declared.requests.CreatePhysicalFile.{CreatePhysicalFile};
ghost use Rattle.library_model.specs.declared.requests.DeleteFile.{DeleteFile};
ghost use Rattle.library_model.specs.declared.requests.FileMember.{FileMember};
ghost use Rattle.library_model.specs.declared.requests.OpenName.{OpenName};
ghost use Rattle.library_model.specs.declared.requests.UpdateRecord.{UpdateRecord};
ghost use Rattle.library_model.specs.declared.requests.WriteRecord.{WriteRecord};
ghost use Rattle.library_model.specs.declared.sources.NamedSource.{NamedSource};
ghost use Rattle.library_steps.specs.ChangeRecord.{delete_record, update_record};
ghost use Rattle.library_steps.specs.CreateLogicalFile.{create_logical_file};
ghost use Rattle.library_steps.specs.CreatePhysicalFile.{create_physical_file};
ghost use Rattle.library_steps.specs.DeleteFile.{delete_file};
ghost use Rattle.library_steps.specs.Journaling.{end_journaling};
ghost use Rattle.library_steps.specs.MemberCommands.{add_member, clear_member, reorganize_member};
ghost use Rattle.library_steps.specs.WriteRecord.{write_record};
ghost use Rattle.replayed_histories.specs.Requests.{AreReplaysKeptBy};

/// What the journal leaves stays the library as it stands after ENDJRNPF.
pub fn ended_journaling_is_replayed()
    ensures { (args : FileMember) → AreReplaysKeptBy (λ m job timestamp. end_journaling m job timestamp args) }
{}

/// So it does after CLRPFM and RGZPFM, whether the member is journaled or not.
pub fn emptied_members_are_replayed()
    ensures cleared { (args : FileMember) → AreReplaysKeptBy (λ m job timestamp. clear_member m job timestamp args) }
    ensures reorganized { (args : FileMember) → AreReplaysKeptBy (λ m job timestamp. reorganize_member m job timestamp args) }
{}

/// So it does after WRITE, UPDATE and DELETE, in a commit cycle or outside one, whether the member is journaled or not.
pub fn changed_records_are_replayed()
    ensures written { (args : WriteRecord) → AreReplaysKeptBy (λ m job timestamp. write_record m job timestamp args) }
    ensures updated { (args : UpdateRecord) → AreReplaysKeptBy (λ m job timestamp. update_record m job timestamp args) }
    ensures deleted { (args : OpenName) → AreReplaysKeptBy (λ m job timestamp. delete_record m job timestamp args) }
{}

/// So it does after ADDPFM.
pub fn added_members_are_replayed()
    ensures { (args : FileMember) → AreReplaysKeptBy (λ m job timestamp. add_member m job timestamp args) }
{}

/// So it does after CRTPF and CRTLF.
pub fn created_files_are_replayed()
    ensures physical { (sources : List NamedSource) (args : CreatePhysicalFile) → AreReplaysKeptBy (λ m job timestamp. create_physical_file sources m job timestamp args) }
    ensures logical { (sources : List NamedSource) (args : CreateLogicalFile) → AreReplaysKeptBy (λ m job timestamp. create_logical_file sources m job timestamp args) }
{}

/// So it does after DLTF: what is refused leaves no other file that depends on the one that goes.
pub fn deleted_files_are_replayed()
    ensures { (args : DeleteFile) → AreReplaysKeptBy (λ m job timestamp. delete_file m job timestamp args) }
{}
