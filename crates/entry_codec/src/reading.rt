//! Reading an entry. Bytes are hostile: each length is tested before anything is taken, and memory
//! only for what the entry holds. What each part answers stands in `specs/Reading.antt`.
ghost use Rattle.std.specs.Prelude.{◌≡◌, List, ℕ, Some, None, Ok, ◌++◌, IfOk, IfSome, IfNone, length};
ghost use Rattle.entry_codec.specs.declared.entries.Entry.{Entry};
ghost use Rattle.entry_codec.specs.Spelling.{Begins, IsSpelled, spelling};
ghost use Rattle.entry_codec.specs.Reading.{Gives, Reads, content_at, entry_at, optional4_at, optional8_at};

use crate::entries::Entry;
use crate::fields::name::name_in;
use crate::fields::{job, number4, number8};
use crate::list::kind_of;
use crate::parts::front;
use crate::places::Named;
use crate::unread::{NotInGrammar, Unread};
use field_types::names::NAME_LENGTH;
use std::alloc::{AllocError, Global};

/// The entry at the front of the bytes, and how many of them it takes; `None` where no front of them
/// is in the grammar. Takes time and memory by the length of the entry, whatever the bytes say, and
/// memory only for what is in the grammar.
pub fn read_entry(alloc: Global, bytes: &[u8]) -> Result<Option<(Entry, usize)>, AllocError>
    // What is read is spelled so.
    ensures found { IfOk result (λ read. IfSome read (λ x. Begins bytes.now x.0 x.1)) }
    // What is spelled so is read, whatever follows it.
    ensures only { (e : Entry) (rest : List ℕ) → IsSpelled e → bytes.now ≡ spelling e ++ rest → IfOk result (λ read. read ≡ Some (e, length (spelling e))) }
    // Nothing is read only where nothing is spelled so.
    ensures none { IfOk result (λ read. IfNone read ((e : Entry) (rest : List ℕ) → IsSpelled e → bytes.now ≡ spelling e ++ rest → ⊥)) }
    // Where nothing is spelled so, that is the answer, whatever memory there is.
    ensures damaged { ((e : Entry) (rest : List ℕ) → IsSpelled e → bytes.now ≡ spelling e ++ rest → ⊥) → result ≡ Ok None }
{
    match entry_of(alloc, bytes) {
        Ok(read) => Ok(Some(read)),
        Err(Unread::NotSpelled) => Ok(None),
        Err(Unread::NoMemory) => Err(AllocError),
    }
}

/// No spelling begins another.
pub fn one_spelling()
    ensures { (a b : Entry) (x y : List ℕ) → IsSpelled a → IsSpelled b → spelling a ++ x ≡ spelling b ++ y → (a ≡ b) × (x ≡ y) }
{}

#[tactic(auto, unfolding(crate::specs::Reading::entry_at))]
fn entry_of(alloc: Global, bytes: &[u8]) -> Result<(Entry, usize), Unread>
    ensures { Gives (λ x. x) result (entry_at bytes.now) }
{
    let (length, rest) = number4::take(bytes)?;
    let (content, _) = front(rest, length as usize)?;
    let entry = content_of(alloc, content)?;
    Ok((entry, 4 + length as usize))
}

#[tactic(auto, unfolding(crate::specs::Reading::content_at))]
fn content_of(alloc: Global, content: &[u8]) -> Result<Entry, Unread>
    ensures { Gives (λ x. x) result (content_at content.now) }
{
    let (sequence, rest) = number8::take(content)?;
    let (letters, rest) = front(rest, 3)?;
    let (field, rest) = front(rest, NAME_LENGTH)?;
    let job = job::job_in(field)?;
    let (moment, rest) = number8::take(rest)?;
    let (group, rest) = optional8(rest)?;
    let (member, rest) = optional4(rest)?;
    let (rrn, body) = optional4(rest)?;
    let named = Named {
        sequence,
        group,
        member,
        rrn,
    };
    let kind = kind_of(alloc, letters, body, &named)?;
    Ok(Entry {
        sequence,
        job,
        moment,
        group,
        member,
        rrn,
        kind,
    })
}

/// A number of eight bytes, where 0 stands for none.
#[tactic(auto, unfolding(crate::specs::Reading::optional8_at))]
fn optional8(bytes: &[u8]) -> Result<(Option<u64>, &[u8]), NotInGrammar>
    ensures { Reads (λ x. (x.0, x.1.now)) result (optional8_at bytes.now) }
{
    let (number, rest) = number8::take(bytes)?;
    match number {
        0 => Ok((None, rest)),
        _ => Ok((Some(number), rest)),
    }
}

/// A number of four bytes, where 0 stands for none.
#[tactic(auto, unfolding(crate::specs::Reading::optional4_at))]
fn optional4(bytes: &[u8]) -> Result<(Option<u32>, &[u8]), NotInGrammar>
    ensures { Reads (λ x. (x.0, x.1.now)) result (optional4_at bytes.now) }
{
    let (number, rest) = number4::take(bytes)?;
    match number {
        0 => Ok((None, rest)),
        _ => Ok((Some(number), rest)),
    }
}
