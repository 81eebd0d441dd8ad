//! What the calls of a legal history lead to, and what they make of the journal. Laws alone: the functions do nothing, and their contracts say it.
#![tactic(auto)]

ghost use Rattle.std.specs.Prelude.{◌≡◌, ◌≢◌, ◌+◌, ◌≤◌, ◌++◌, [], ℕ, Ok, List, length};
ghost use Rattle.entry_codec.specs.declared.entries.Entry.{Entry};
ghost use Rattle.journal_model.specs.Journal.{AreNumbered};
ghost use Rattle.library_model.specs.declared.calls.Call.{Call};
ghost use Rattle.library_model.specs.declared.replies.Reply.TheVariants.{NoMemory, StoreFault};
ghost use Rattle.library_model.specs.declared.requests.Request.{Request};
ghost use Rattle.library_model.specs.declared.requests.Request.TheVariants.{ChangeJournal};
ghost use Rattle.library_model.specs.declared.sources.NamedSource.{NamedSource};
ghost use Rattle.library_steps.specs.State.{Memory, State, begun};
ghost use Rattle.library_steps.specs.Change.{Change};
ghost use Rattle.library_steps.specs.History.{Outcome, Standing, Runs};
ghost use Rattle.library_steps.specs.Step.{change, step};
ghost use Rattle.joint_state.specs.Sound.{IsSound};

/// No change answers that memory was wanting, or that the store was at fault.
pub fn changes_are_answered()
    ensures memory { (sources : List NamedSource) (entries : List Entry) (m : Memory) (job timestamp : ℕ) (request : Request) (done : Change)
        → change sources entries m job timestamp request ≡ Ok done → done.reply ≢ NoMemory }
    ensures store { (sources : List NamedSource) (entries : List Entry) (m : Memory) (job timestamp : ℕ) (request : Request) (done : Change)
        → change sources entries m job timestamp request ≡ Ok done → done.reply ≢ StoreFault }
{}

/// The calls of a legal history lead to one state.
pub fn histories_lead_to_one_state()
    ensures { (sources : List NamedSource) (from : Outcome) (s t : State) (calls : List Call) → Runs sources from calls (Standing s)
        → Runs sources from calls (Standing t) → s ≡ t }
{}

/// While no checkpoint was saved, a call puts its entries behind those of the journal; those of CHGJRN are two.
pub fn entries_stay()
    ensures grow { (sources : List NamedSource) (s : State) (job timestamp : ℕ) (request : Request) → s.checkpoint ≡ 0 → AreNumbered (s.gone + 1) s.entries
        → (more : List Entry) × ((step sources s job timestamp request).0.entries ≡ s.entries ++ more) }
    ensures switch { (sources : List NamedSource) (s : State) (job timestamp : ℕ)
        → length (step sources s job timestamp ChangeJournal).0.entries ≤ length s.entries + 2 }
{}

/// Jobs may begin in any sound library in which none has begun: it stays sound.
pub fn jobs_begin_in_a_sound_library()
    ensures { (s : State) (names : List (List ℕ)) → IsSound s → s.jobs ≡ [] → IsSound (begun s names) }
{}
