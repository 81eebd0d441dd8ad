//! What the definitions ask to be forced is forced. The function does nothing, and its contract is the law.
ghost use Rattle.std.specs.Prelude.{◌≡◌, ℕ, true, Ok, List};
ghost use Rattle.entry_codec.specs.declared.entries.Entry.{Entry};
ghost use Rattle.library_model.specs.declared.requests.Request.{Request};
ghost use Rattle.library_model.specs.declared.sources.NamedSource.{NamedSource};
ghost use Rattle.library_steps.specs.State.{Memory};
ghost use Rattle.library_steps.specs.Change.{Change};
ghost use Rattle.library_steps.specs.Step.{change};
ghost use Rattle.forced_calls.specs.Forced.{is_forced};

/// A call whose change asks to be on the disk before it is answered is forced.
pub fn asked_is_forced()
    ensures { (sources : List NamedSource) (entries : List Entry) (m : Memory) (job timestamp : ℕ) (request : Request) (c : Change) → change sources entries m job timestamp request ≡ Ok c → c.forced ≡ true → is_forced request c.entries ≡ true }
{}
