//! Opens the library that a store keeps, and trusts no byte. What it is, is in specs/Opened.antt.
ghost use Rattle.std.specs.Prelude.{◌≡◌, IfOk, IfErr};
ghost use Rattle.restart_model.specs.Libraries.{restart_job};
ghost use Rattle.opened_library.specs.Opened.{IsNotOpened, IsOpenedLibrary};

use crate::building::build_library;
use described_journals::DataDescriptions;
use described_journals::restart_laws::laws::{
    descriptions_keep_lengths, restarted_libraries_are_sound,
};
use field_types::names::Name;
use journal_opening::OpenFault;
use kept_library::KeptLibrary;
use restart_drafts::By;
use restarted_journal::restart_journal;
use std::alloc::Global;
use store_model::Store;

/// Opens the library that a store keeps: what a stop left of its journal is replayed, and what is open at its end rolled back.
/// After a refusal the store is handed back, and can be opened again.
pub fn open_library<S: Store>(alloc: Global, store: S) -> Result<KeptLibrary<S>, (OpenFault, S)>
    ensures opened { IfOk result (λ library. IsOpenedLibrary S.tells S.disk (S.disk store) (S.disk library.store) library) }
    ensures refused { IfErr result (λ refused. IsNotOpened refused.0 S.tells (S.disk store) (S.disk refused.1)) }
{
    let by = DataDescriptions::new(alloc);
    open_by(alloc, store, &by)
}

/// The same, where sources are read by these descriptions.
fn open_by<S: Store>(
    alloc: Global,
    store: S,
    by: &DataDescriptions,
) -> Result<KeptLibrary<S>, (OpenFault, S)>
    ensures opened { IfOk result (λ library. IsOpenedLibrary S.tells S.disk (S.disk store) (S.disk library.store) library) }
    ensures refused { IfErr result (λ refused. IsNotOpened refused.0 S.tells (S.disk store) (S.disk refused.1)) }
{
    descriptions_keep_lengths();
    restarted_libraries_are_sound();
    let mut store = store;
    match restart_journal(alloc, &mut store, by, &restarter()) {
        Err(fault) => Err((fault, store)),
        Ok(restarted) => build_library(alloc, store, restarted),
    }
}

/// Who deposits what a restart deposits: RESTART, at the time 0.
fn restarter() -> By
    ensures job { result.job ≡ restart_job }
    ensures moment { result.moment ≡ 0 }
{
    By {
        job: Name::from_bytes(b"RESTART"),
        moment: 0,
    }
}
