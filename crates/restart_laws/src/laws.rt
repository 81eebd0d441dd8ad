//! Contracts of functions that do nothing.

ghost use Rattle.std.specs.Prelude.{◌≡◌, ℕ, ◌<◌, ◌≤◌, ◌+◌, Option, Some, None, Ok, List};
ghost use Rattle.std.specs.List.{AllByRecursion, IsDistinct};
ghost use Rattle.std.specs.Map.{keys_of};
ghost use Rattle.entry_codec.specs.declared.entries.Entry.{Entry};
ghost use Rattle.entry_codec.specs.declared.kinds.FileKind.TheVariants.{Physical};
ghost use Rattle.dds_source.specs.declared.specifications.Source.{Source};
ghost use Rattle.dds_physical.specs.declared.physical_files.PhysicalSpec.{PhysicalSpec};
ghost use Rattle.dds_logical.specs.declared.views.LogicalSpec.{LogicalSpec};
ghost use Rattle.dds_logical.specs.FormatLines.{formats_in, is_join_file};
ghost use Rattle.dds_logical.specs.Logical.{logical_of};
ghost use Rattle.journal_model.specs.Catalogue.{CatalogFile};
ghost use Rattle.member_slots.specs.Member.{MemberState};
ghost use Rattle.member_slots.specs.Members.{Numbered};
ghost use Rattle.journal_model.specs.Journal.{AreNumbered, CanReplayJournal, catalogue_of, restarted};
ghost use Rattle.journal_limits.specs.Lengths.{KeepsLengths};
ghost use Rattle.lawful_states.specs.Owners.{AreApart};
ghost use Rattle.library_model.specs.Named.{same_name};
ghost use Rattle.lawful_states.specs.Lawful.{AreBased};
ghost use Rattle.lawful_states.specs.Ranges.{library_bytes};
ghost use Rattle.lawful_states.below.library_steps.specs.declared.limits.TheConstants.{MOST_LIBRARY_BYTES};
ghost use Rattle.library_kept.specs.Sound.{IsSound};
ghost use Rattle.journaled_entries.specs.Deposited.{AreDeposited};
ghost use Rattle.restart_laws.specs.Given.{IsLeftAs, IsSameOver};
ghost use Rattle.library_kept.specs.Limits.{AreFormats};
ghost use Rattle.library_kept.specs.Views.{AreMapped, HaveDefaults};
ghost use Rattle.restart_model.specs.Sources.{descriptions};
ghost use Rattle.restart_model.specs.Libraries.{journal_with, library_restarted, restart_job};

/// The files and members that a restart finds fit each other, where the journal can be replayed: no two files have one name, no two members one number,
/// each file's fields lie one behind the other and may hold their default values, and logical files stand over physical files that are there.
pub fn restarted_files_are_sound()
    ensures names { (entries : List Entry) (attached moment : ℕ) → CanReplayJournal descriptions (journal_with entries)
        → IsDistinct same_name (keys_of (library_restarted (λ _. 0) attached moment (journal_with entries)).files) }
    ensures apart { (entries : List Entry) (attached moment : ℕ) → CanReplayJournal descriptions (journal_with entries)
        → AreApart (library_restarted (λ _. 0) attached moment (journal_with entries)).files }
    ensures formats { (entries : List Entry) (attached moment : ℕ) → CanReplayJournal descriptions (journal_with entries)
        → AreFormats (library_restarted (λ _. 0) attached moment (journal_with entries)).files }
    ensures defaults { (entries : List Entry) (attached moment : ℕ) → CanReplayJournal descriptions (journal_with entries)
        → HaveDefaults (library_restarted (λ _. 0) attached moment (journal_with entries)).files }
    ensures views { (entries : List Entry) (attached moment : ℕ) → CanReplayJournal descriptions (journal_with entries)
        → AreMapped (library_restarted (λ _. 0) attached moment (journal_with entries)).files }
    ensures bases { (entries : List Entry) (attached moment : ℕ) → CanReplayJournal descriptions (journal_with entries)
        → AreBased (library_restarted (λ _. 0) attached moment (journal_with entries)).files }
    ensures numbers { (entries : List Entry) (attached moment : ℕ) → CanReplayJournal descriptions (journal_with entries)
        → AllByRecursion (λ (entry : Numbered MemberState). entry.number < (library_restarted (λ _. 0) attached moment (journal_with entries)).next_member)
        (library_restarted (λ _. 0) attached moment (journal_with entries)).members }
    ensures numbered { (entries : List Entry) (attached moment : ℕ) → CanReplayJournal descriptions (journal_with entries)
        → AreNumbered ((library_restarted (λ _. 0) attached moment (journal_with entries)).gone + 1) (library_restarted (λ _. 0) attached moment (journal_with entries)).entries }
{}

/// Each physical file that the journal leaves is one of the library's, made from its source: what that describes stays, whatever files come and go.
pub fn physical_files_are_left()
    ensures { (entries : List Entry) (attached moment : ℕ) → CanReplayJournal descriptions (journal_with entries)
        → AllByRecursion (λ (file : CatalogFile). file.kind ≡ Physical
        → IsLeftAs (catalogue_of (restarted restart_job moment (journal_with entries))).files (library_restarted (λ _. 0) attached moment (journal_with entries)).files file)
        (catalogue_of (restarted restart_job moment (journal_with entries))).files }
{}

/// What a logical file's source describes depends on the physical files alone that its formats name.
/// It stays where more physical files are there.
pub fn logical_files_depend_on_what_they_name()
    ensures same { (bases others : List ℕ → Option PhysicalSpec) (source : Source)
        → AllByRecursion (IsSameOver bases others (is_join_file (formats_in source.specifications))) (formats_in source.specifications) → logical_of others source ≡ logical_of bases source }
    ensures wider { (bases others : List ℕ → Option PhysicalSpec) (source : Source) (spec : LogicalSpec) → ((name : List ℕ) (its : PhysicalSpec) → bases name ≡ Some its → others name ≡ Some its)
        → logical_of bases source ≡ Ok spec → logical_of others source ≡ Ok spec }
{}

/// A library is sound after its restart, where its journal can be replayed and holds only what libraries deposit.
pub fn restarted_libraries_are_sound()
    ensures { (entries : List Entry) (attached moment : ℕ) → CanReplayJournal descriptions (journal_with entries)
        → AreDeposited entries
        → library_bytes (library_restarted (λ _. 0) attached moment (journal_with entries)).members ≤ MOST_LIBRARY_BYTES
        → IsSound (library_restarted (λ _. 0) attached moment (journal_with entries)) }
{}

/// What the rules of data descriptions say of record lengths stays, so that members can be judged entry by entry: an image that is a record of an entry's member
/// is as long as that member's records, and those stay as long, whatever files come and go.
pub fn descriptions_keep_lengths()
    ensures { KeepsLengths descriptions }
{}
