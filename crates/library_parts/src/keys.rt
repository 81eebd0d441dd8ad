//! Whether a record may have its keys: those that open commit cycles keep to themselves, and those of other records.
ghost use Rattle.std.specs.Prelude.{◌≡◌, ℕ, ◌+◌, ◌<◌, [], ◌∷◌, true, false, List, Some, Ok, length, drop, IfOk, IsSome, IsTrue, option_map, slice_get};
ghost use Rattle.std.specs.List.{AllByRecursion};
ghost use Rattle.file_model.specs.declared.paths.PathFormat.{PathFormat};
ghost use Rattle.file_model.specs.KeyOrder.{KeyValue};
ghost use Rattle.file_model.specs.Paths.{clash};
ghost use Rattle.library_model.specs.declared.replies.Reply.TheVariants.{DuplicateKey};
ghost use Rattle.library_steps.specs.Refusals.{refuse_with};
ghost use Rattle.journal_model.specs.Rollback.{MemberChange};
ghost use Rattle.parts_model.specs.Formats.{IsAskable};
ghost use Rattle.parts_model.specs.NewKeys.{AllAreAskedBefore, AreAskedBefore, AreFreeIn, IsAskedBefore, IsFormatAt, IsKeptOver, IsKeyAt, IsNewFor, MayBeAsked, ShowsKey, first_reserved, keys_kept, keys_tested, least_of, least_reserved, lesser_of, new_in_paths, own_reserved, refused_by, reservation_of, taken, tested};
ghost use Rattle.member_slots.specs.declared.slot.Slot.TheVariants.{Live};
ghost use Rattle.member_slots.specs.Member.{FitsSlot};
ghost use Rattle.member_slots.specs.Members.{member_at, member_of};
ghost use Rattle.library_steps.specs.Records.{slot_there};
ghost use Rattle.library_steps.specs.Uses.{changes_in};
ghost use Rattle.library_steps.specs.History.{is_running};
ghost use Rattle.library_steps.specs.State.{FileState, memory_of, job_at, job_of};
ghost use Rattle.library_steps.specs.UniqueKeys.{has_key, if_new, key_in, key_of_slot, keys_free, takes_key, uniques_by};
ghost use Rattle.parts_model.specs.Answers.{MayAllow};
ghost use Rattle.lawful_states.specs.Slots.{MayStand};

use crate::contents::Contents;
use crate::given::unique_path;
use crate::texts::are_bytes;
use field_types::names::Name;
use file_model::paths::PathSpec;
use key_pages::Key;
use library_model::replies::Reply;
use member_slots::slot::Slot;
use parts_model::file_catalogue::File;
use parts_model::job_table::{Undo, Undos};
use parts_model::{Reservation, Stop, Test};
use std::alloc::AllocError;

/// A key that comes into a unique path over a member.
#[derive(Clone, Copy)]
struct NewKey<'a> {
    path: u64,
    member: u32,
    key: &'a [u8],
}

/// A record that is to have a key in the place of the slot with that number, by the call of a job.
#[derive(Clone, Copy)]
struct NewRecord<'a> {
    job: u32,
    commit: bool,
    member: u32,
    rrn: u32,
    image: &'a [u8],
}

impl Contents {
    /// The refusal where a key that the image would have, in the place of the slot with that number, is another's: kept by an open
    /// commit cycle, or that of another record. It goes over the unique paths of the member and the changes of all open commit cycles,
    /// and over the files only where it refuses.
    pub fn keys_free(
        &self,
        job: u32,
        commit: bool,
        member: u32,
        rrn: u32,
        image: &[u8],
    ) -> Result<(), Stop>
        requires running { IsTrue (is_running (job_at job self.now.state.jobs)) }
        requires there { IsSome (member_at member self.now.state.members) }
        requires fits { FitsSlot (member_of member self.now.state.members).record_length (Live image.now) }
        requires values { MayStand self.now.state member (Live image.now) }
        ensures { MayAllow result (keys_free job commit member rrn (slot_there member rrn (memory_of self.now.state)) image.now (memory_of self.now.state)) }
    {
        // What holds of all files, members and kept paths.
        let _files = self.catalogue.len();
        let _kept = self.paths.kept();
        let _none = self.members.at(0);
        are_bytes(image);
        let new = NewRecord {
            job,
            commit,
            member,
            rrn,
            image,
        };
        let free = self.has_free_keys(new)?;
        if free {
            Ok(())
        } else {
            self.first_refusal(new)
        }
    }

    /// Whether none of its new keys in the unique paths over its member is kept or another's.
    fn has_free_keys(&self, new: NewRecord<'_>) -> Result<bool, AllocError>
        requires running { IsTrue (is_running (job_at new.job self.now.state.jobs)) }
        requires asked { IsNewFor self.now new.member new.rrn new.image.now }
        ensures { IfOk result (λ free. IsTrue free → (id : ℕ) (format : PathFormat) (over : IsFormatAt id new.entry.member format self.now.room.paths.paths) → over.path.spec.unique ≡ true
            → AreFreeIn (memory_of self.now.state) new.entry.job new.entry.commit new.entry.member new.entry.rrn new.entry.image.now format) }
    {
        let mut path = self.paths.unique_over(new.member, None);
        while let Some(id) = path {
            let refused = self.is_refused_in(id, new)?;
            if refused {
                return Ok(false);
            }
            path = self.paths.unique_over(new.member, Some(id));
        }
        Ok(true)
    }

    /// Whether its new key in one of these paths is kept or another's.
    fn is_refused_in(&self, id: u64, new: NewRecord<'_>) -> Result<bool, AllocError>
        requires running { IsTrue (is_running (job_at new.job self.now.state.jobs)) }
        requires asked { IsNewFor self.now new.member new.rrn new.image.now }
        requires path { (format : PathFormat) × IsFormatAt id new.member format self.now.room.paths.paths × IsAskable format new.image.now }
        ensures { IfOk result (λ refused. refused ≡ false → (format : PathFormat) → IsFormatAt id new.entry.member format self.now.room.paths.paths
            → AreFreeIn (memory_of self.now.state) new.entry.job new.entry.commit new.entry.member new.entry.rrn new.entry.image.now format) }
    {
        let Some(key) = self.new_key(id, new)? else {
            return Ok(false);
        };
        let its = NewKey {
            path: id,
            member: new.member,
            key: key.as_bytes(),
        };
        let kept = self.is_kept(new, its)?;
        if kept {
            Ok(true)
        } else {
            let other = self.paths.clash(id, 0, new.image, new.rrn)?;
            Ok(other.is_some())
        }
    }

    /// Whether an open commit cycle keeps the key to itself, so that the job may not write it.
    fn is_kept(&self, new: NewRecord<'_>, its: NewKey<'_>) -> Result<bool, AllocError>
        requires running { IsTrue (is_running (job_at new.job self.now.state.jobs)) }
        requires path { (format : PathFormat) × IsFormatAt its.path its.member format self.now.room.paths.paths × AllAreAskedBefore format its.member self.now.state.jobs }
        ensures { IfOk result (λ kept. kept ≡ false → (format : PathFormat) (key : List KeyValue) → IsKeyAt its.entry.path its.entry.member its.entry.key.now format key self.now.room.paths.paths
            → keys_kept format key new.entry.job new.entry.commit (changes_in (job_of new.entry.job (memory_of self.now.state)).cycle) self.now.state.jobs ≡ Ok true) }
    {
        let others = self.reservation_of_others(new.job, its)?;
        let own = self.own_reservation(new, its)?;
        match others {
            Some(_) => Ok(true),
            None => Ok(own.is_some()),
        }
    }

    /// The first refusal: where none of the keys is kept, that of a record which has one.
    fn first_refusal(&self, new: NewRecord<'_>) -> Result<(), Stop>
        requires running { IsTrue (is_running (job_at new.job self.now.state.jobs)) }
        requires asked { IsNewFor self.now new.member new.rrn new.image.now }
        ensures { MayAllow result (keys_free new.entry.job new.entry.commit new.entry.member new.entry.rrn (slot_there new.entry.member new.entry.rrn (memory_of self.now.state)) new.entry.image.now (memory_of self.now.state)) }
    {
        match self.all_free(new, Test::Reserved) {
            Ok(()) => self.all_free(new, Test::Repeated),
            Err(stop) => Err(stop),
        }
    }

    /// The first refusal of this kind, by the order in which the files were made.
    fn all_free(&self, new: NewRecord<'_>, test: Test) -> Result<(), Stop>
        requires running { IsTrue (is_running (job_at new.job self.now.state.jobs)) }
        requires asked { IsNewFor self.now new.member new.rrn new.image.now }
        ensures { MayAllow result (keys_tested test new.entry.job new.entry.commit new.entry.member new.entry.rrn new.entry.image.now (memory_of self.now.state)) }
    {
        let (files, _) = self.counts();
        for place in 0..files {
            self.free_at(new, test, place)?;
        }
        Ok(())
    }

    /// That of the file at a place in the order of creation, counted from 0.
    fn free_at(&self, new: NewRecord<'_>, test: Test, place: usize) -> Result<(), Stop>
        requires running { IsTrue (is_running (job_at new.job self.now.state.jobs)) }
        requires asked { IsNewFor self.now new.member new.rrn new.image.now }
        ensures { (entry : List ℕ × FileState) → slice_get self.now.state.files place ≡ Some entry
            → MayAllow result (refused_by test new.entry.job new.entry.commit new.entry.rrn (new_in_paths (uniques_by entry.1.spec (memory_of self.now.state) new.entry.member entry) (memory_of self.now.state) new.entry.member new.entry.rrn new.entry.image.now) (memory_of self.now.state)) }
    {
        match self.catalogue.at(place) {
            Some((name, file)) => self.free_of_file(*name, file, new, test),
            None => Ok(()),
        }
    }

    /// That of a file, in its unique path over the member where it has one.
    fn free_of_file(
        &self,
        name: Name,
        file: &File,
        new: NewRecord<'_>,
        test: Test,
    ) -> Result<(), Stop>
        requires running { IsTrue (is_running (job_at new.job self.now.state.jobs)) }
        requires asked { IsNewFor self.now new.member new.rrn new.image.now }
        requires kept { AllByRecursion (IsKeptOver new.member self.now.room.paths.paths) (uniques_by file.now.spec (memory_of self.now.state) new.member (name, file.now)) }
        ensures { MayAllow result (refused_by test new.entry.job new.entry.commit new.entry.rrn (new_in_paths (uniques_by file.now.spec (memory_of self.now.state) new.entry.member (name, file.now)) (memory_of self.now.state) new.entry.member new.entry.rrn new.entry.image.now) (memory_of self.now.state)) }
    {
        match unique_path(self.alloc, &self.catalogue, new.member, file)? {
            Some(path) => self.free_in_path(name, &path, new, test),
            None => Ok(()),
        }
    }

    /// That of a file in the path of this specification.
    fn free_in_path(
        &self,
        file: Name,
        path: &PathSpec,
        new: NewRecord<'_>,
        test: Test,
    ) -> Result<(), Stop>
        requires running { IsTrue (is_running (job_at new.job self.now.state.jobs)) }
        requires asked { IsNewFor self.now new.member new.rrn new.image.now }
        requires kept { IsKeptOver new.member self.now.room.paths.paths (record { file = file; path = path.now }) }
        ensures { MayAllow result (refused_by test new.entry.job new.entry.commit new.entry.rrn (new_in_paths (record { file = file; path = path.now } ∷ []) (memory_of self.now.state) new.entry.member new.entry.rrn new.entry.image.now) (memory_of self.now.state)) }
    {
        match self.paths.number_of(path) {
            Some(id) => self.free_in_file(file, id, new, test),
            None => Ok(()),
        }
    }

    /// The refusal of this kind in the path of a file.
    fn free_in_file(&self, file: Name, id: u64, new: NewRecord<'_>, test: Test) -> Result<(), Stop>
        requires running { IsTrue (is_running (job_at new.job self.now.state.jobs)) }
        requires asked { IsNewFor self.now new.member new.rrn new.image.now }
        requires path { (format : PathFormat) × IsFormatAt id new.member format self.now.room.paths.paths × IsAskable format new.image.now }
        ensures { (format : PathFormat) → IsFormatAt id new.entry.member format self.now.room.paths.paths → MayAllow result (tested test file (memory_of self.now.state) new.entry.job new.entry.commit new.entry.member new.entry.rrn new.entry.image.now format) }
    {
        let Some(key) = self.new_key(id, new)? else {
            return Ok(());
        };
        let its = NewKey {
            path: id,
            member: new.member,
            key: key.as_bytes(),
        };
        match test {
            Test::Reserved => self.not_reserved(new, its),
            Test::Repeated => self.not_repeated(file, id, new),
        }
    }

    /// The key that comes into the path: that of the image, where it is selected and the record at the place hasn't the same.
    fn new_key(&self, id: u64, new: NewRecord<'_>) -> Result<Option<Key>, AllocError>
        requires asked { IsNewFor self.now new.member new.rrn new.image.now }
        requires path { (format : PathFormat) × IsFormatAt id new.member format self.now.room.paths.paths × IsAskable format new.image.now }
        ensures { IfOk result (λ key. (format : PathFormat) → IsFormatAt id new.entry.member format self.now.room.paths.paths
            → ShowsKey format new.entry.image.now key (if_new (key_of_slot format (slot_there new.entry.member new.entry.rrn (memory_of self.now.state))) (key_in format new.entry.image.now))) }
    {
        let Some(key) = self.paths.key(self.alloc, id, 0, new.image)? else {
            return Ok(None);
        };
        let Some(old) = self.live_image(new.member, new.rrn) else {
            return Ok(Some(key));
        };
        if self.has_key(id, old, key.as_bytes())? {
            Ok(None)
        } else {
            Ok(Some(key))
        }
    }

    /// Whether the image has that key in the path.
    fn has_key(&self, id: u64, image: &[u8], key: &[u8]) -> Result<bool, AllocError>
        requires { (member : ℕ) × (format : PathFormat) × IsFormatAt id member format self.now.room.paths.paths × MayBeAsked format image.now }
        ensures { IfOk result (λ same. (member : ℕ) (format : PathFormat) (values : List KeyValue) → IsKeyAt id member key.now format values self.now.room.paths.paths → same ≡ has_key (key_in format image.now) values) }
    {
        are_bytes(image);
        match self.paths.key(self.alloc, id, 0, image)? {
            Some(other) => Ok(other.as_bytes() == key),
            None => Ok(false),
        }
    }

    /// Whether the change took a record of the member with that key away.
    fn is_taken_by(&self, its: NewKey<'_>, undo: &Undo) -> Result<bool, AllocError>
        requires { (format : PathFormat) × IsFormatAt its.path its.member format self.now.room.paths.paths × IsAskedBefore format its.member undo.now.change }
        ensures { IfOk result (λ taken. (format : PathFormat) (key : List KeyValue) → IsKeyAt its.entry.path its.entry.member its.entry.key.now format key self.now.room.paths.paths → taken ≡ takes_key format key undo.now.change) }
    {
        if undo.member() != its.member {
            return Ok(false);
        }
        match undo.before() {
            Slot::Live(image) => self.has_key(its.path, image.as_bytes(), its.key),
            Slot::Deleted => Ok(false),
        }
    }

    /// The least record with that key that one of the changes took away.
    fn least_taken(&self, its: NewKey<'_>, undos: &Undos) -> Result<Option<u32>, AllocError>
        requires { (format : PathFormat) × IsFormatAt its.path its.member format self.now.room.paths.paths × AreAskedBefore format its.member undos.now.changes }
        ensures { IfOk result (λ least. (format : PathFormat) (key : List KeyValue) → IsKeyAt its.entry.path its.entry.member its.entry.key.now format key self.now.room.paths.paths → least ≡ least_of (taken format key undos.now.changes)) }
    {
        let mut least = None;
        let mut left = undos.len();
        while left > 0 {
            left -= 1;
            let undo = undos.get(left).unwrap();
            least = self.with_taken(its, undo, least)?;
        }
        Ok(least)
    }

    /// The lesser of a record that was taken away by the change and of another.
    fn with_taken(
        &self,
        its: NewKey<'_>,
        undo: &Undo,
        least: Option<u32>,
    ) -> Result<Option<u32>, AllocError>
        requires { (format : PathFormat) × IsFormatAt its.path its.member format self.now.room.paths.paths × IsAskedBefore format its.member undo.now.change }
        ensures { IfOk result (λ new. (format : PathFormat) (key : List KeyValue) (more : List MemberChange) → IsKeyAt its.entry.path its.entry.member its.entry.key.now format key self.now.room.paths.paths
            → least ≡ least_of (taken format key more) → new ≡ least_of (taken format key (undo.now.change ∷ more))) }
    {
        if self.is_taken_by(its, undo)? {
            Ok(lesser(undo.rrn(), least))
        } else {
            Ok(least)
        }
    }

    /// The refusal where an open commit cycle keeps the key to itself; that of the job itself is no hindrance under commitment.
    fn not_reserved(&self, new: NewRecord<'_>, its: NewKey<'_>) -> Result<(), Stop>
        requires running { IsTrue (is_running (job_at new.job self.now.state.jobs)) }
        requires path { (format : PathFormat) × IsFormatAt its.path its.member format self.now.room.paths.paths × AllAreAskedBefore format its.member self.now.state.jobs }
        ensures { (format : PathFormat) (key : List KeyValue) → IsKeyAt its.entry.path its.entry.member its.entry.key.now format key self.now.room.paths.paths
            → MayAllow result (keys_kept format key new.entry.job new.entry.commit (changes_in (job_of new.entry.job (memory_of self.now.state)).cycle) self.now.state.jobs) }
    {
        if let Some(other) = self.reservation_of_others(new.job, its)? {
            return Err(Stop::Refused(Reply::RecordInUse {
                job: other.job,
                member: its.member,
                rrn: other.rrn,
            }));
        }
        match self.own_reservation(new, its)? {
            Some(rrn) => Err(Stop::Refused(Reply::HeldByGroup { rrn })),
            None => Ok(()),
        }
    }

    /// The least record with the key that the job's own open commit cycle took away, where the job writes outside it.
    fn own_reservation(
        &self,
        new: NewRecord<'_>,
        its: NewKey<'_>,
    ) -> Result<Option<u32>, AllocError>
        requires running { IsTrue (is_running (job_at new.job self.now.state.jobs)) }
        requires path { (format : PathFormat) × IsFormatAt its.path its.member format self.now.room.paths.paths × AllAreAskedBefore format its.member self.now.state.jobs }
        ensures { IfOk result (λ rrn. (format : PathFormat) (key : List KeyValue) → IsKeyAt its.entry.path its.entry.member its.entry.key.now format key self.now.room.paths.paths
            → rrn ≡ own_reserved new.entry.commit (least_of (taken format key (changes_in (job_of new.entry.job (memory_of self.now.state)).cycle)))) }
    {
        if new.commit {
            Ok(None)
        } else {
            self.least_taken(its, self.jobs.undos(new.job))
        }
    }

    /// The least record with the key that another job's open commit cycle took away. It goes over all jobs.
    fn reservation_of_others(
        &self,
        job: u32,
        its: NewKey<'_>,
    ) -> Result<Option<Reservation>, AllocError>
        requires path { (format : PathFormat) × IsFormatAt its.path its.member format self.now.room.paths.paths × AllAreAskedBefore format its.member self.now.state.jobs }
        ensures { IfOk result (λ least. (format : PathFormat) (key : List KeyValue) → IsKeyAt its.entry.path its.entry.member its.entry.key.now format key self.now.room.paths.paths
            → option_map reservation_of least ≡ least_reserved format key job 1 self.now.state.jobs) }
    {
        let mut least = None;
        let mut left = self.jobs.len();
        while left > 0 {
            left -= 1;
            least = self.reserved_from(job, its, left, least)?;
        }
        Ok(least)
    }

    /// The reservation of the job at a place, counted from 0, and of those behind it, where `rest` is that of those behind it.
    fn reserved_from(
        &self,
        job: u32,
        its: NewKey<'_>,
        place: usize,
        rest: Option<Reservation>,
    ) -> Result<Option<Reservation>, AllocError>
        requires path { (format : PathFormat) × IsFormatAt its.path its.member format self.now.room.paths.paths × AllAreAskedBefore format its.member self.now.state.jobs }
        requires place { place < length self.now.state.jobs }
        ensures { IfOk result (λ least. (format : PathFormat) (key : List KeyValue) (left : ℕ) → IsKeyAt its.entry.path its.entry.member its.entry.key.now format key self.now.room.paths.paths → left ≡ place + 1
            → option_map reservation_of rest ≡ least_reserved format key job (left + 1) (drop left self.now.state.jobs)
            → option_map reservation_of least ≡ least_reserved format key job (place + 1) (drop place self.now.state.jobs)) }
    {
        // There are no more jobs than can be counted.
        let _jobs = self.jobs.len();
        let number = place as u32 + 1;
        if number == job {
            return Ok(rest);
        }
        let own = self.least_taken(its, self.jobs.changes_of(place))?;
        Ok(first_of_both(number, own, rest))
    }

    /// The refusal where another record has the key.
    fn not_repeated(&self, file: Name, id: u64, new: NewRecord<'_>) -> Result<(), Stop>
        requires asked { IsNewFor self.now new.member new.rrn new.image.now }
        requires path { (format : PathFormat) × IsFormatAt id new.member format self.now.room.paths.paths × IsAskable format new.image.now }
        ensures { (format : PathFormat) → IsFormatAt id new.entry.member format self.now.room.paths.paths
            → MayAllow result (refuse_with (λ other. DuplicateKey file other) (clash format self.now.state.members new.entry.image.now new.entry.rrn)) }
    {
        match self.paths.clash(id, 0, new.image, new.rrn)? {
            Some(rrn) => Err(Stop::Refused(Reply::DuplicateKey { file, rrn })),
            None => Ok(()),
        }
    }
}

/// The lesser of both, where there is another.
fn lesser(rrn: u32, other: Option<u32>) -> Option<u32>
    ensures { result ≡ lesser_of rrn other }
{
    match other {
        Some(other) => { if other < rrn { Some(other) } else { Some(rrn) } }
        None => Some(rrn),
    }
}

/// The reservation of the lesser record; the first where both are of one.
fn first_of_both(job: u32, rrn: Option<u32>, rest: Option<Reservation>) -> Option<Reservation>
    ensures { option_map reservation_of result ≡ first_reserved job rrn (option_map reservation_of rest) }
{
    let Some(rrn) = rrn else {
        return rest;
    };
    match rest {
        Some(other) => {
            if other.rrn < rrn {
                Some(other)
            } else {
                Some(Reservation { job, rrn })
            }
        }
        None => Some(Reservation { job, rrn }),
    }
}
