//! Logical files: their creation and its refusals, reading, adding and changing through them, and what stands in the way of their bases.
ghost use Rattle.std.specs.Prelude.{◌≡◌, ℕ, List, true, false, Some, None, Ok, Err, [], ◌∷◌, ◌++◌, codes, take};
ghost use Rattle.commit_level.specs.declared.Level.TheVariants.{Chg};
ghost use Rattle.entry_codec.specs.declared.kinds.Images.TheVariants.{Both};
ghost use Rattle.entry_codec.specs.declared.kinds.FileKind.TheVariants.{Logical};
ghost use Rattle.entry_codec.specs.declared.kinds.EntryKind.TheVariants.{FileCreated};
ghost use Rattle.dds_source.specs.declared.faults.DdsFault.{DdsFault};
ghost use Rattle.field_types.specs.declared.faults.RecordFault.TheVariants.{BadField};
ghost use Rattle.field_types.specs.declared.faults.ValueFault.TheVariants.{ReadOnlyField};
ghost use Rattle.library_model.specs.declared.requests.Request.TheVariants as request;
ghost use Rattle.library_model.specs.declared.requests.OpenOption.TheVariants.{Input, All};
ghost use Rattle.library_model.specs.declared.requests.AccessPath.TheVariants.{File, Arrival};
ghost use Rattle.library_model.specs.declared.requests.LockOption.TheVariants.{Default};
ghost use Rattle.library_model.specs.declared.requests.Limit.TheVariants as limit;
ghost use Rattle.library_model.specs.declared.replies.Reply.TheVariants.{Done, Added, NameExists, NoSuchName, Dependents, InUse, WrongOpen, NoDefinition, NotJournaled, BadValue, NotFound, EndOfFile, LimitReached, DuplicateKey};
ghost use Rattle.library_model.specs.declared.replies.Reply.TheVariants as replies;
ghost use Rattle.library_model.specs.declared.replies.Missing.TheVariants as missing;
ghost use Rattle.library_model.specs.declared.replies.LimitKind.TheVariants.{Sequences, Files, Paths};
ghost use Rattle.library_steps.specs.State.{memory_of};
ghost use Rattle.library_steps.specs.CreateLogicalFile.{logical_described};
ghost use Rattle.library_rows.specs.Customers.{cust, no_key, library, held};
ghost use Rattle.library_rows.specs.Calls.{by, three_customers, opens, open_as, close, write, chain, delete, update, journal, start_commitment};
ghost use Rattle.library_rows.specs.Shown.{led_to};
ghost use Rattle.library_rows.specs.MemberCalls.{its_member};
ghost use Rattle.library_rows.specs.Brimming.{replies_from, reply_with, gone_by, worn_out, more_files, unlocked};
ghost use Rattle.library_rows.specs.RefusedCalls.{none, new, drop_file, left_pending, set_lower_to};
ghost use Rattle.library_rows.specs.Views.{view_name, old_name, backwards, one_each, first_names, unsorted, first_letters, old_and_new, came_back, two_files, seen, seen_often, create_view, placed, may_be_placed, open_view_as, open_view, read_view, write_through, shown, named_source, last_told, told_alone, files_after, made_from_source};
ghost use Rattle.library_rows.specs.ViewCalls.{two_of_one_name, deleted_unjournaled, one_deleted_unjournaled, changed_in_cycle, both_files, one_came_back};

/// CRTLF: the last sequence, a name that is taken, too many files, a source that isn't there.
pub fn logical_file_is_not_created()
    ensures sequences { replies_from (worn_out (library no_key)) (by 1 (create_view cust none) ∷ []) ≡ LimitReached Sequences 4611686018427387903 ∷ [] }
    ensures last_sequence { replies_from (gone_by 4611686018427387902 (library no_key)) (by 1 (create_view new none) ∷ []) ≡ NoSuchName (missing.Name none) ∷ [] }
    ensures files { replies_from (more_files 499 (library no_key)) (by 1 (create_view cust none) ∷ by 1 (create_view new none) ∷ []) ≡
        NameExists cust ∷ LimitReached Files 500 ∷ [] }
    ensures last_file { replies_from (more_files 498 (library no_key)) (by 1 (create_view new none) ∷ []) ≡ NoSuchName (missing.Name none) ∷ [] }
{}

/// Where its source describes a file: too many paths over a member, a commit cycle's change, a restart that could bring equal keys back, equal keys.
pub fn logical_file_is_not_placed()
    ensures paths { placed backwards (seen_often 32 (library no_key)) ≡ Err (LimitReached Paths 32) }
    ensures last_path { placed backwards (seen_often 31 (library no_key)) ≡ may_be_placed backwards }
    ensures same_path { placed backwards (seen backwards (seen_often 31 (library no_key))) ≡ may_be_placed backwards }
    ensures paths_first { placed backwards (seen_often 32 (led_to no_key changed_in_cycle)) ≡ Err (LimitReached Paths 32) }
    ensures in_use { placed one_each (led_to no_key changed_in_cycle) ≡ Err (InUse 1) }
    ensures read_alone { placed backwards (led_to no_key (take 6 changed_in_cycle)) ≡ may_be_placed backwards }
    ensures committed { placed one_each (led_to no_key (changed_in_cycle ++ by 1 request.Commit ∷ [])) ≡ may_be_placed one_each }
    ensures not_journaled { placed one_each (led_to no_key deleted_unjournaled) ≡ Err (NotJournaled 1) }
    ensures journaled_again { placed one_each (led_to no_key (deleted_unjournaled ++ by 1 (journal Both) ∷ [])) ≡ may_be_placed one_each }
    ensures one_record { placed one_each (led_to no_key one_deleted_unjournaled) ≡ may_be_placed one_each }
    ensures not_unique { placed backwards (led_to no_key deleted_unjournaled) ≡ may_be_placed backwards }
    ensures duplicate { placed one_each (led_to no_key two_of_one_name) ≡ Err (DuplicateKey view_name 1) }
    ensures not_duplicate { placed one_each (led_to no_key three_customers) ≡ may_be_placed one_each }
{}

/// OPNDBF of a logical file: its only member has its name; no arrival order; a join is read alone and outside commitment; all base members are journaled.
pub fn logical_file_is_not_opened()
    ensures member { replies_from (seen backwards (library no_key)) (by 1 (open_view_as All Arrival true cust) ∷ []) ≡ NoSuchName (missing.Name cust) ∷ [] }
    ensures arrival { replies_from (seen backwards (library no_key)) (by 1 (open_view_as All Arrival true view_name) ∷ []) ≡ WrongOpen ∷ [] }
    ensures undefined { replies_from (seen backwards (library no_key)) (by 1 (open_view_as All File true view_name) ∷ []) ≡ NoDefinition ∷ [] }
    ensures unjournaled { replies_from (seen old_and_new two_files) (by 1 (start_commitment Chg) ∷ by 1 (journal Both) ∷ by 1 (open_view_as All File true view_name) ∷ []) ≡
        Done ∷ Done ∷ NotJournaled 2 ∷ [] }
    ensures join { replies_from (seen came_back two_files) (by 1 (open_view_as All File false view_name) ∷ by 1 (open_view_as Input File true view_name)
        ∷ by 1 (open_view_as Input File false view_name) ∷ []) ≡ WrongOpen ∷ WrongOpen ∷ Done ∷ [] }
{}

/// A view by key, with a selection, without a key, and of a part of a field.
pub fn read_through_views()
    ensures backwards { replies_from (seen backwards (led_to no_key three_customers)) (by 2 open_view ∷ by 2 read_view ∷ by 2 read_view ∷ by 2 read_view ∷ by 2 read_view ∷ []) ≡
        Done ∷ shown (codes "VIEWR") 3 (held (codes "C")) ∷ shown (codes "VIEWR") 2 (held (codes "B")) ∷ shown (codes "VIEWR") 1 (held (codes "A")) ∷ EndOfFile ∷ [] }
    ensures selected { replies_from (seen first_names (led_to no_key three_customers)) (by 1 (chain cust 1) ∷ by 1 (update cust (codes "D")) ∷ by 2 open_view ∷ by 2 read_view ∷ by 2 read_view ∷ []) ≡
        shown (codes "CUSTR") 1 (held (codes "A")) ∷ Done ∷ Done ∷ shown (codes "VIEWR") 2 (held (codes "B")) ∷ EndOfFile ∷ [] }
    ensures unsorted { replies_from (seen unsorted (led_to no_key three_customers)) (by 2 open_view ∷ by 2 (chain view_name 2) ∷ by 2 read_view ∷ []) ≡
        Done ∷ shown (codes "VIEWR") 2 (held (codes "B")) ∷ shown (codes "VIEWR") 3 (held (codes "C")) ∷ [] }
    ensures part { replies_from (seen first_letters (led_to no_key three_customers)) (by 2 open_view ∷ by 2 (chain view_name 2) ∷ by 2 (update view_name (codes "Z")) ∷ []) ≡
        Done ∷ shown (codes "VIEWR") 2 (codes "B") ∷ BadValue (BadField 1 ReadOnlyField) ∷ [] }
    ensures number_of_key { replies_from (seen backwards (library no_key)) (by 1 open_view ∷ by 1 (chain view_name 1) ∷ by 1 (set_lower_to (limit.RecordNumber 1) view_name) ∷ []) ≡
        Done ∷ WrongOpen ∷ WrongOpen ∷ [] }
{}

/// What is written through a view stands in the file under it, and a unique view refuses equal keys through every file.
pub fn written_through_views()
    ensures added { replies_from (seen backwards (library no_key)) (by 1 open_view ∷ by 1 (write_through None (codes "K")) ∷ by 1 opens ∷ by 1 (chain cust 1) ∷ []) ≡
        Done ∷ Added 1 ∷ Done ∷ shown (codes "CUSTR") 1 (held (codes "K")) ∷ [] }
    ensures format { replies_from (seen backwards (library no_key)) (by 1 open_view ∷ by 1 (write_through (Some (codes "CUSTR")) (codes "K")) ∷ by 1 (write_through (Some (codes "VIEWR")) (codes "K")) ∷ []) ≡
        Done ∷ NoSuchName (missing.Name (codes "CUSTR")) ∷ Added 1 ∷ [] }
    ensures unique { replies_from (seen one_each (led_to no_key three_customers)) (by 1 (write cust (codes "B")) ∷ by 1 (chain cust 1) ∷ by 1 (update cust (codes "C")) ∷ by 2 open_view ∷ by 2 (write_through None (codes "A")) ∷ []) ≡
        DuplicateKey view_name 2 ∷ shown (codes "CUSTR") 1 (held (codes "A")) ∷ DuplicateKey view_name 3 ∷ Done ∷ DuplicateKey view_name 1 ∷ [] }
    ensures input { replies_from (seen backwards (library no_key)) (by 1 (open_view_as Input File false view_name) ∷ by 1 (write_through None (codes "K")) ∷ []) ≡ Done ∷ WrongOpen ∷ [] }
{}

/// Several formats: records of both files in one order, each under its format and number; one is added where its format says, the first where none is named.
pub fn several_formats()
    ensures merged { replies_from (seen old_and_new two_files) both_files ≡
        Done ∷ Added 1 ∷ Added 1 ∷ Added 2 ∷ shown (codes "NEWR") 1 (held (codes "A")) ∷ shown (codes "OLDR") 1 (held (codes "B")) ∷ shown (codes "NEWR") 2 (held (codes "C")) ∷ EndOfFile ∷ [] }
    ensures numbers { replies_from (seen old_and_new two_files) (by 1 open_view ∷ by 1 (chain view_name 1) ∷ by 1 (write_through (Some (codes "VIEWR")) (codes "A")) ∷ []) ≡
        Done ∷ WrongOpen ∷ NoSuchName (missing.Name (codes "VIEWR")) ∷ [] }
{}

/// A join shows the rows of both files, under the number of the primary's record.
pub fn rows_of_a_join()
    ensures joined { replies_from (seen came_back two_files) one_came_back ≡
        Done ∷ Added 1 ∷ Added 2 ∷ Done ∷ Added 1 ∷ Done ∷ shown (codes "VIEWR") 2 (held (codes "B")) ∷ EndOfFile ∷ [] }
    ensures numbers { replies_from (seen came_back two_files) (by 1 (open_view_as Input File false view_name) ∷ by 1 (chain view_name 1) ∷ []) ≡ Done ∷ WrongOpen ∷ [] }
{}

/// A base file stays while a logical file stands over it, and its member is in use through an open of that. DLTF of a logical file: an open of it, or a commit cycle's change.
pub fn bases_stay()
    ensures dependents { replies_from (seen backwards (library no_key)) (by 1 open_view ∷ by 1 (drop_file cust) ∷ by 1 (drop_file view_name) ∷ by 1 (close view_name) ∷ by 1 (drop_file view_name) ∷ by 1 (drop_file cust) ∷ []) ≡
        Done ∷ Dependents view_name ∷ InUse 1 ∷ Done ∷ Done ∷ Done ∷ [] }
    ensures base_open { replies_from (seen backwards (library no_key)) (by 1 opens ∷ by 1 (drop_file view_name) ∷ []) ≡ Done ∷ Done ∷ [] }
    ensures second_base { replies_from (seen old_and_new two_files) (by 1 (drop_file old_name) ∷ []) ≡ Dependents view_name ∷ [] }
    ensures cycle { replies_from (seen backwards (unlocked (led_to no_key left_pending))) (by 2 (drop_file view_name) ∷ []) ≡ InUse 1 ∷ [] }
    ensures opened { replies_from (seen backwards (library no_key)) (by 2 open_view ∷ by 1 (request.ClearMember its_member) ∷ []) ≡ Done ∷ InUse 2 ∷ [] }
    ensures no_member { replies_from (seen backwards (library no_key)) (by 1 (request.AddMember (record { file = view_name; member = new })) ∷ by 1 (request.ClearMember (record { file = view_name; member = view_name })) ∷ []) ≡
        NoSuchName (missing.Name view_name) ∷ NoSuchName (missing.Name view_name) ∷ [] }
{}

/// CRTLF by a source, whatever its text: the first fault of its description, or a file whose creation the journal tells.
pub fn described_by_a_source()
    ensures fault { (text : List ℕ) (fault : DdsFault) → logical_described (memory_of (library no_key)) text ≡ Err fault →
        reply_with (named_source text ∷ []) (library no_key) (create_view view_name view_name) ≡ replies.DdsFault fault }
    ensures created { (text : List ℕ) → logical_described (memory_of (library no_key)) text ≡ Ok backwards →
        reply_with (named_source text ∷ []) (library no_key) (create_view view_name view_name) ≡ Done }
    ensures told { (text : List ℕ) → logical_described (memory_of (library no_key)) text ≡ Ok backwards →
        last_told (named_source text ∷ []) (library no_key) (create_view view_name view_name) ≡ told_alone (FileCreated Logical view_name text) }
    ensures files { (text : List ℕ) → logical_described (memory_of (library no_key)) text ≡ Ok backwards →
        files_after (named_source text ∷ []) (library no_key) (create_view view_name view_name) ≡ (library no_key).files ++ made_from_source text backwards }
{}
