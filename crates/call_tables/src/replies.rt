//! The table of replies.

/// `reply_table!(arms!(..))` calls `arms!` with `(..)` and with the rows, group by group. A row is the reply's name, the
/// word that it begins with, the fields that it has, and how they are printed in order: what kind of value, behind which
/// keyword, and of which fields.
#[macro_export]
macro_rules! reply_table {
    ($arms:ident!($($with:tt)*)) => {
        $arms! {
            ($($with)*)
            done {
                Done b"OK" () []
            }
            results {
                Record b"OK" ((read)) [record (; read)]
                Added b"OK" ({ rrn }) [number (RecordNumber; rrn)]
                Range b"OK" ({ first, last, changes }) [range (; first, last, changes)]
                Receiver b"OK" ({ number }) [number (Receiver; number)]
                Sequence b"OK" ({ number }) [sequence (Sequence; number)]
                Entries b"OK" ((entries)) [entries (; entries)]
            }
            records {
                RecordInUse b"RecordInUse" ({ job, member, rrn }) [job (Job; job) number (Member; member) number (RecordNumber; rrn)]
                HeldByGroup b"HeldByGroup" ({ rrn }) [number (RecordNumber; rrn)]
                PlaceInUse b"PlaceInUse" ({ rrn }) [number (RecordNumber; rrn)]
                HeldToBoundary b"HeldToBoundary" () []
                NotFound b"NotFound" () []
                EndOfFile b"EndOfFile" () []
                BeginOfFile b"BeginOfFile" () []
                NoCurrentRecord b"NoCurrentRecord" () []
            }
            states {
                WrongOpen b"WrongOpen" () []
                NoDefinition b"NoDefinition" () []
                AlreadyStarted b"AlreadyStarted" () []
                NoSuchEntry b"NoSuchEntry" () []
                MemberFull b"MemberFull" () []
                StoreFault b"StoreFault" () []
                NoMemory b"NoMemory" () []
            }
            names {
                DuplicateKey b"DuplicateKey" ({ file, rrn }) [name (File; file) number (RecordNumber; rrn)]
                NoSuchName b"NoSuchName" ((missing)) [missing (Name; missing)]
                NameExists b"NameExists" ({ name }) [name (Name; name)]
                Dependents b"Dependents" ({ name }) [name (Name; name)]
                BadValue b"BadValue" ((fault)) [record_fault (; fault)]
                DdsFault b"DdsFault" ((fault)) [dds_fault (; fault)]
                InUse b"InUse" ({ job }) [job (Job; job)]
                NotJournaled b"NotJournaled" ({ member }) [number (Member; member)]
            }
            ranges {
                PendingChanges b"PendingChanges" ({ group }) [sequence (Group; group)]
                Straddled b"Straddled" ({ group }) [sequence (Group; group)]
                DoesNotFit b"DoesNotFit" ({ sequence, rrn }) [sequence (Sequence; sequence) number (RecordNumber; rrn)]
                NeedsBoth b"NeedsBoth" ({ sequence }) [sequence (Sequence; sequence)]
                Gap b"Gap" ({ sequence }) [sequence (Sequence; sequence)]
                NotRemovable b"NotRemovable" ({ sequence }) [sequence (Sequence; sequence)]
                ReceiverGone b"ReceiverGone" ({ sequence }) [sequence (Sequence; sequence)]
                BlockChanged b"BlockChanged" ({ sequence }) [sequence (Sequence; sequence)]
            }
            receivers {
                StillNeeded b"StillNeeded" ({ sequence }) [sequence (Sequence; sequence)]
            }
            limits {
                LimitReached b"LimitReached" ({ which, number }) [limit_kind (Limit; which) long (Number; number)]
            }
        }
    };
}
