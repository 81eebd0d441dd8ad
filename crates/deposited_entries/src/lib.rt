//! What each call deposits in the journal may wait in the journal's book. Laws alone: the functions do nothing, and their contracts say it.
//! Begin with `specs/Deposits.antt`.
#![tactic(auto)]

ghost use Rattle.std.specs.Prelude.{◌≡◌, ◌+◌, ◌≤◌, ◌^◌, ℕ, IsTrue, false, true, List, length};
ghost use Rattle.std.specs.List.{AllByRecursion};
ghost use Rattle.entry_codec.specs.Spelling.{HasSpelling};
ghost use Rattle.journal_model.specs.Journal.{AreNumbered};
ghost use Rattle.journal_book.specs.Entries.{IsInside, spelled};
ghost use Rattle.library_steps.specs.declared.limits.TheConstants.{MOST_BLOCK_BYTES};
ghost use Rattle.library_model.specs.declared.replies.Reply.{Reply};
ghost use Rattle.library_model.specs.declared.requests.Request.{Request};
ghost use Rattle.library_model.specs.declared.sources.NamedSource.{NamedSource};
ghost use Rattle.library_steps.specs.State.{State, begun, empty_library, job_at};
ghost use Rattle.library_steps.specs.Change.{Change};
ghost use Rattle.library_steps.specs.History.{is_running};
ghost use Rattle.library_steps.specs.Step.{MayAnswer};
ghost use Rattle.cycles_kept.specs.Sound.{Does, IsSound, after};
ghost use Rattle.deposited_entries.specs.Deposits.{AreShort, AreSwitch, switches};
ghost use Rattle.deposited_entries.specs.Counted.{IsCounted};
ghost use Rattle.deposited_entries.specs.Groups.{GroupsWithin};
ghost use Rattle.deposited_entries.specs.Sequences.{SequencesSuffice};

/// The entries of a call have the sequences behind the last one, and none is left out.
pub fn deposits_are_numbered()
    ensures { (s : State) (done : Change) → Does s done → AreNumbered (s.gone + length s.entries + 1) done.entries }
{}

/// None of them ties receivers but those of CHGJRN, which are the two that do.
pub fn deposits_are_inside()
    ensures inside { (s : State) (done : Change) (d : Does s done) → switches d.request ≡ false → AllByRecursion IsInside done.entries }
    ensures switched { (s : State) (done : Change) (d : Does s done) → switches d.request ≡ true → AreSwitch s.receivers.attached done.entries }
{}

/// Members and commit cycles are counted from 1 and records have a byte, from the beginning on and whatever is done.
pub fn numbers_stay_counted()
    ensures empty { IsCounted empty_library }
    ensures begun { (s : State) (names : List (List ℕ)) → IsCounted s → IsCounted (begun s names) }
    ensures kept { (s : State) (done : Change) → Does s done → IsCounted s → IsCounted (after s done) }
    ensures called { (sources : List NamedSource) (old new : State) (job timestamp : ℕ) (request : Request) (reply : Reply) → IsSound old
        → IsTrue (is_running (job_at job old.jobs)) → MayAnswer sources old job timestamp request reply new → IsCounted old → IsCounted new }
{}

/// Each entry of a call has a spelling.
pub fn deposits_have_spellings()
    ensures { (s : State) (done : Change) (d : Does s done) → AreShort d.sources → IsCounted s → AllByRecursion HasSpelling done.entries }
{}

/// The open commit cycles stay within their limits, from the beginning on and whatever is done.
pub fn groups_stay_within()
    ensures empty { GroupsWithin empty_library }
    ensures begun { (s : State) (names : List (List ℕ)) → GroupsWithin s → GroupsWithin (begun s names) }
    ensures kept { (s : State) (done : Change) → Does s done → GroupsWithin s → GroupsWithin (after s done) }
    ensures called { (sources : List NamedSource) (old new : State) (job timestamp : ℕ) (request : Request) (reply : Reply) → IsSound old
        → IsTrue (is_running (job_at job old.jobs)) → MayAnswer sources old job timestamp request reply new → GroupsWithin old → GroupsWithin new }
{}

/// The entries of a call have at most so many bytes as a block may have.
pub fn deposits_fit_a_block()
    ensures { (s : State) (done : Change) (d : Does s done) → AreShort d.sources → GroupsWithin s
        → length (spelled done.entries) ≤ MOST_BLOCK_BYTES }
{}

/// The journal has sequences for the entries of each call, also of those that don't ask: they are counted for as long as a commit cycle is open or
/// commitment control is started.
pub fn sequences_suffice()
    ensures empty { SequencesSuffice empty_library }
    ensures begun { (s : State) (names : List (List ℕ)) → SequencesSuffice s → SequencesSuffice (begun s names) }
    ensures kept { (s : State) (done : Change) (d : Does s done) → AreShort d.sources → GroupsWithin s → SequencesSuffice s
        → SequencesSuffice (after s done) }
    ensures called { (sources : List NamedSource) (old new : State) (job timestamp : ℕ) (request : Request) (reply : Reply) → AreShort sources
        → IsSound old → IsTrue (is_running (job_at job old.jobs)) → MayAnswer sources old job timestamp request reply new → GroupsWithin old
        → SequencesSuffice old → SequencesSuffice new }
    ensures few { (s : State) (done : Change) (d : Does s done) → AreShort d.sources → GroupsWithin s → SequencesSuffice s → length s.jobs ≤ 2 ^ 60
        → s.gone + length s.entries + length done.entries ≤ 2 ^ 63 }
{}
