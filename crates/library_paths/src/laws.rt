//! Contracts of functions that do nothing.
ghost use Rattle.std.specs.Prelude.{◌≡◌, ◌⊎◌, ℕ, ◌+◌, ◌==◌, nat_lt, if◌then◌else◌, true, false, Option, Some, None, is_some, List, [], ◌∷◌, ◌++◌, length, map, filter, All, Contains};
ghost use Rattle.std.specs.List.{AllByRecursion, IsDistinct};
ghost use Rattle.std.specs.Map.{keys_of};
ghost use Rattle.key_pages.specs.declared.entries.Entry.{Entry};
ghost use Rattle.member_slots.specs.Members.{Numbered, NumberedMembers, item_at};
ghost use Rattle.library_steps.below.dds_physical.specs.declared.physical_files.PhysicalSpec.{PhysicalSpec};
ghost use Rattle.file_model.specs.declared.paths.PathSpec.{PathSpec};
ghost use Rattle.file_model.specs.FilePaths.{physical_path};
ghost use Rattle.logical_model.specs.Bases.{PhysicalFile};
ghost use Rattle.logical_model.specs.FilePaths.{is_over};
ghost use Rattle.logical_model.specs.SamePaths.{count_paths};
ghost use Rattle.path_set.specs.KeptPaths.{KeptPath, NumberedPaths, AreOver, AreShared};
ghost use Rattle.path_set.specs.MemberSteps.{is_over as over_member, paths_over as kept_over};
ghost use Rattle.path_set.specs.Sharing.{IsShared, IsPut, detached};
ghost use Rattle.library_model.specs.Named.{Named, named, same_name};
ghost use Rattle.library_steps.specs.CreatePhysicalFile.{new_status};
ghost use Rattle.library_steps.specs.DeleteFile.{first_dependent, without_file};
ghost use Rattle.library_steps.specs.LogicalFiles.{physical_paths, paths_over};
ghost use Rattle.library_steps.specs.MemberCommands.{file_changed, with_member_name};
ghost use Rattle.library_steps.specs.SlotChange.{status_in};
ghost use Rattle.library_steps.specs.State.{Memory, FileState, MemberStatus, physical_among, status_changed};
ghost use Rattle.library_paths.specs.AllPaths.{paths_by, all_paths, count_in, AreKeptFor, StandsBy, AllStand};
ghost use Rattle.library_paths.specs.PathOwners.{IsOfFile, IsOfMember};
ghost use Rattle.library_paths.specs.KeptOnce.{IsKeptOnce, with_entries};

/// What becomes of the paths of all files, and that each file stands still, where a file or a member comes, a status changes, or a file goes.
pub fn files_have_their_paths()
    ensures new { (files : Named FileState) (name : List ℕ) (file : FileState) → AllStand files
        → all_paths (files ++ (name, file) ∷ []) ≡ all_paths files ++ paths_by (files ++ (name, file) ∷ []) file.members file.spec }
    ensures own { (files : Named FileState) (name : List ℕ) (file : FileState) → StandsBy files name file.members file.spec
        → paths_by (files ++ (name, file) ∷ []) file.members file.spec ≡ paths_by files file.members file.spec }
    ensures first { (spec : PhysicalSpec) (members : Named MemberStatus) (name : List ℕ) (status : MemberStatus) → members ≡ (name, status) ∷ []
        → physical_paths spec members ≡ (if nat_lt 0 (length spec.keys.parts) then physical_path status.number spec.format.fields spec.keys ∷ [] else []) }
    ensures member { (files : Named FileState) (path : PathSpec) (name member : List ℕ) (number : ℕ) (file : FileState) (spec : PhysicalSpec) → physical_among name files ≡ Some file
        → file.spec ≡ PhysicalFile spec → IsDistinct same_name (keys_of files) → AllStand files
        → count_in path (all_paths (file_changed name (with_member_name member number) files))
        ≡ count_in path (all_paths files) + count_in path (physical_paths spec ((member, new_status number) ∷ [])) }
    ensures status { (number : ℕ) (change : MemberStatus → MemberStatus) → ((status : MemberStatus) → (change status).number ≡ status.number) → (files : Named FileState)
        → all_paths (map (λ entry. (entry.0, status_changed number change entry.1)) files) ≡ all_paths files }
    ensures deleted { (files : Named FileState) (path : PathSpec) (name : List ℕ) (file : FileState) → named name files ≡ Some file → IsDistinct same_name (keys_of files)
        → first_dependent name files ≡ None
        → count_in path (all_paths (without_file name files)) + count_in path (paths_by files file.members file.spec) ≡ count_in path (all_paths files) }
    ensures new_stand { (files : Named FileState) (name : List ℕ) (file : FileState) → AllStand files → StandsBy files name file.members file.spec → AllStand (files ++ (name, file) ∷ []) }
    ensures first_stand { (files : Named FileState) (name : List ℕ) (members : Named MemberStatus) (status : MemberStatus) (spec : PhysicalSpec) → members ≡ (name, status) ∷ []
        → StandsBy files name members (PhysicalFile spec) }
    ensures member_stand { (files : Named FileState) (name member : List ℕ) (number : ℕ) → AllStand files → AllStand (file_changed name (with_member_name member number) files) }
    ensures status_stand { (number : ℕ) (change : MemberStatus → MemberStatus) (files : Named FileState) → AllStand files
        → AllStand (map (λ entry. (entry.0, status_changed number change entry.1)) files) }
    ensures deleted_stand { (name : List ℕ) (files : Named FileState) → first_dependent name files ≡ None → AllStand files → AllStand (without_file name files) }
{}

/// Files stand where each does that a name finds.
pub fn files_stand_by_their_names()
    ensures all { (files : Named FileState) → IsDistinct same_name (keys_of files)
        → ((name : List ℕ) (file : FileState) → named name files ≡ Some file → StandsBy files name file.members file.spec) → AllStand files }
    ensures one { (files : Named FileState) (name : List ℕ) (file : FileState) → AllStand files → named name files ≡ Some file → StandsBy files name file.members file.spec }
{}

/// Each of all paths is one file's, that of a physical file is over one of its members, and none is over a member that no file has.
pub fn paths_have_their_files()
    ensures contain { (files : Named FileState) (name : List ℕ) (file : FileState) (spec : PathSpec) → named name files ≡ Some file → Contains (paths_by files file.members file.spec) spec
        → Contains (all_paths files) spec }
    ensures owner { (files : Named FileState) (spec : PathSpec) → IsDistinct same_name (keys_of files) → Contains (all_paths files) spec → IsOfFile files spec }
    ensures member { (spec : PhysicalSpec) (members : Named MemberStatus) (number : ℕ) → nat_lt 0 (length spec.keys.parts) ≡ true → is_some (status_in number members) ≡ true
        → Contains (physical_paths spec members) (physical_path number spec.format.fields spec.keys) }
    ensures of_member { (spec : PhysicalSpec) (members : Named MemberStatus) (path : PathSpec) → Contains (physical_paths spec members) path → IsOfMember spec members path }
    ensures apart { (files : Named FileState) (number : ℕ) → AllStand files → AllByRecursion (λ entry. is_some (status_in number entry.1.members) ≡ false) files
        → AllByRecursion (λ spec. is_over number spec ≡ false) (all_paths files) }
    ensures kept_apart { (files : Named FileState) (number : ℕ) (members : NumberedMembers) (kept : NumberedPaths) → AllStand files
        → AllByRecursion (λ entry. is_some (status_in number entry.1.members) ≡ false) files → AreShared kept → AreKeptFor (all_paths files) members kept
        → All (λ path. over_member number path.item.spec ≡ false) kept }
{}

/// What is kept are the paths that files have, where a file gets one or gives one up, and where members change.
pub fn paths_are_kept_for_files()
    ensures none { (members : NumberedMembers) → AreKeptFor [] members [] }
    ensures attached { (members : NumberedMembers) (spec : PathSpec) (id : ℕ) (old new : NumberedPaths) → AreShared old → (specs : List PathSpec) → AreKeptFor specs members old
        → (IsShared spec id old new ⊎ IsPut spec members id old new) → AreKeptFor (spec ∷ specs) members new }
    ensures attached_last { (members : NumberedMembers) (spec : PathSpec) (id : ℕ) (old new : NumberedPaths) → AreShared old → (specs : List PathSpec) → AreKeptFor specs members old
        → (IsShared spec id old new ⊎ IsPut spec members id old new) → AreKeptFor (specs ++ spec ∷ []) members new }
    ensures attached_shared { (members : NumberedMembers) (spec : PathSpec) (id : ℕ) (old new : NumberedPaths) → AreShared old
        → (IsShared spec id old new ⊎ IsPut spec members id old new) → AreShared new }
    ensures detached { (id : ℕ) (path : KeptPath) (old : NumberedPaths) → AreShared old → item_at id old ≡ Some path → (specs : List PathSpec) (members : NumberedMembers) (spec : PathSpec)
        → AreKeptFor (spec ∷ specs) members old → path.spec ≡ spec → AreKeptFor specs members (detached id old) }
    ensures detached_shared { (id : ℕ) (path : KeptPath) (old : NumberedPaths) → AreShared old → item_at id old ≡ Some path → AreShared (detached id old) }
    ensures same { (specs others : List PathSpec) (members : NumberedMembers) (kept : NumberedPaths) → ((path : PathSpec) → count_in path specs ≡ count_in path others)
        → AreKeptFor specs members kept → AreKeptFor others members kept }
    ensures together { (path : PathSpec) (specs more : List PathSpec) → count_in path (specs ++ more) ≡ count_in path specs + count_in path more }
    ensures owned { (specs : List PathSpec) (members : NumberedMembers) (kept : NumberedPaths) → AreShared kept → AreKeptFor specs members kept
        → All (λ path. Contains specs path.item.spec) kept }
    ensures found { (specs : List PathSpec) (members : NumberedMembers) (kept : NumberedPaths) (spec : PathSpec) → AreShared kept → AreKeptFor specs members kept → Contains specs spec
        → IsKeptOnce spec kept }
    ensures members { (entries : Numbered KeptPath → List Entry) (kept : NumberedPaths) (specs : List PathSpec) (members others : NumberedMembers)
        → AreOver others (map (with_entries entries) kept) → AreKeptFor specs members kept → AreKeptFor specs others (map (with_entries entries) kept) }
    ensures elsewhere { (specs : List PathSpec) (members others : NumberedMembers) (kept : NumberedPaths) → AreOver others kept → AreKeptFor specs members kept → AreKeptFor specs others kept }
    ensures members_shared { (entries : Numbered KeptPath → List Entry) (kept : NumberedPaths) → AreShared kept → AreShared (map (with_entries entries) kept) }
{}

/// How many different paths over a member there are among those of files: as many as are kept.
pub fn kept_paths_over_a_member_are_counted()
    ensures all { (member : ℕ) (m : Memory) → paths_over member m ≡ filter (is_over member) (all_paths m.files) }
    ensures kept { (member : ℕ) (specs : List PathSpec) (members : NumberedMembers) (kept : NumberedPaths) → AreShared kept → AreKeptFor specs members kept
        → count_paths (filter (is_over member) specs) ≡ length (kept_over member kept) }
{}
