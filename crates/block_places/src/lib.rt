//! Laws of the block places that a library keeps for forced calls. Nothing runs here: the function is empty, and its contract is the laws.
#![tactic(auto)]

ghost use Rattle.std.specs.Prelude.{◌≡◌, ℕ, ◌+◌, ◌*◌, ◌≤◌, false, IsTrue, Ok, List, length};
ghost use Rattle.entry_codec.specs.declared.entries.Entry.{Entry};
ghost use Rattle.library_model.specs.declared.requests.Request.{Request};
ghost use Rattle.library_model.specs.declared.sources.NamedSource.{NamedSource};
ghost use Rattle.library_model.specs.NeedsMemory.{needs_memory};
ghost use Rattle.library_steps.specs.State.{JobState, Memory, State, job_at, memory_of};
ghost use Rattle.library_steps.specs.Change.{Change};
ghost use Rattle.library_steps.specs.History.{is_running};
ghost use Rattle.library_steps.specs.Step.{change};
ghost use Rattle.block_places.specs.Dues.{place_used, places_due};

/// Two places a job are always enough; a request that wants no memory gives up the place that it uses; and whatever is asked, two places a job that
/// was there and one more are enough for what it uses and for what is due behind it.
pub fn places_suffice()
    ensures most { (jobs : List JobState) → places_due jobs ≤ 2 * length jobs }
    ensures jobs { (sources : List NamedSource) (entries : List Entry) (m : Memory) (job timestamp : ℕ) (request : Request) (c : Change) → change sources entries m job timestamp request ≡ Ok c → length c.memory.jobs ≡ length m.jobs }
    ensures made { (sources : List NamedSource) (entries : List Entry) (m : Memory) (job timestamp : ℕ) (request : Request) (c : Change) → change sources entries m job timestamp request ≡ Ok c
        → places_due c.memory.jobs + place_used c ≤ 2 * length m.jobs + 1 }
    ensures spent { (sources : List NamedSource) (s : State) (job timestamp : ℕ) (request : Request) (c : Change) → IsTrue (is_running (job_at job s.jobs)) → needs_memory request ≡ false
        → change sources s.entries (memory_of s) job timestamp request ≡ Ok c → places_due c.memory.jobs + place_used c ≤ places_due s.jobs }
{}
