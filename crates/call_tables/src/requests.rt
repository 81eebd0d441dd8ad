//! The table of requests.

/// `request_table!(arms!(..))` calls `arms!` with `(..)` and with the rows, group by group. A row is the request's name,
/// the word of its command, what it asks with, and how a statement asks it:
///
/// - `()`, or the struct of its arguments with each field in its order: what kind of value it is, the parameters that
///   give it, and what stands there in a statement where none of them does;
/// - `[]`, or what a statement makes of it where values may be variables (`asks`, the rest of a variant of `RequestForm`)
///   and the parameter that says where what is read goes: `into To`, and `first To` where it is judged before the others.
#[macro_export]
macro_rules! request_table {
    ($arms:ident!($($with:tt)*)) => {
        $arms! {
            ($($with)*)
            files {
                CreatePhysicalFile b"CRTPF" (CreatePhysicalFile { file: name (File), source: name (Source) }) []
                CreateLogicalFile b"CRTLF" (CreateLogicalFile { file: name (File), source: name (Source) }) []
                DeleteFile b"DLTF" (DeleteFile { file: name (File) }) []
                AddMember b"ADDPFM" (FileMember { file: name (File), member: name (Member) = file }) []
                ClearMember b"CLRPFM" (FileMember { file: name (File), member: name (Member) = file }) []
                ReorganizeMember b"RGZPFM" (FileMember { file: name (File), member: name (Member) = file }) []
            }
            journaling {
                StartJournaling b"STRJRNPF" (StartJournaling {
                    file: name (File), member: name (Member) = file, images: images (Images) = After
                }) []
                EndJournaling b"ENDJRNPF" (FileMember { file: name (File), member: name (Member) = file }) []
            }
            journal {
                ChangeJournal b"CHGJRN" () []
                DeleteReceiver b"DLTJRNRCV" (DeleteReceiver { number: number (Receiver) }) [asks (number)]
                Checkpoint b"CHKPT" () []
                DisplayJournal b"DSPJRN" (DisplayJournal {
                    from: sequence (FromEntry), to: sequence (ToEntry)
                }) [asks { from, to }]
                ApplyChanges b"APYJRNCHG" (JournaledChanges {
                    file: name (File), member: name (Member) = file, from: range_end (FromEntry) = First,
                    to: range_end (ToEntry) = Last
                }) [asks (ChangesForm { file, member, from, to })]
                RemoveChanges b"RMVJRNCHG" (JournaledChanges {
                    file: name (File), member: name (Member) = file, from: range_end (FromEntry) = Last,
                    to: range_end (ToEntry) = First
                }) [asks (ChangesForm { file, member, from, to })]
            }
            commitment {
                StartCommitment b"STRCMTCTL" (StartCommitment { level: level (LockLevel) }) []
                EndCommitment b"ENDCMTCTL" () []
            }
            boundaries {
                Commit b"COMMIT" () []
                Rollback b"ROLLBACK" () []
            }
            opens {
                OpenFile b"OPNDBF" (OpenFile {
                    file: name (File), option: option (Option) = Input, member: name (Member) = file,
                    open_id: name (OpenId) = file, commit: commit (Commit) = No,
                    access_path: access_path (AccessPath) = File
                }) []
                CloseFile b"CLOF" (OpenName { open_id: name (OpenId) }) []
                SetLowerLimit b"SETLL" (SetPosition {
                    open_id: name (OpenId), to: limit (Key, RecordNumber)
                }) [asks (PositionForm { open_id, to })]
                SetGreaterThan b"SETGT" (SetPosition {
                    open_id: name (OpenId), to: limit (Key, RecordNumber)
                }) [asks (PositionForm { open_id, to })]
            }
            records {
                Read b"READ" (ReadRecord { open_id: name (OpenId), lock: lock (Lock) = Default }) [into To]
                ReadPrior b"READP" (ReadRecord { open_id: name (OpenId), lock: lock (Lock) = Default }) [into To]
                ReadEqual b"READE" (ReadEqual {
                    open_id: name (OpenId), key: values (Key), lock: lock (Lock) = Default
                }) [first To asks (ReadEqualForm { open_id, key, lock })]
                ReadPriorEqual b"READPE" (ReadEqual {
                    open_id: name (OpenId), key: values (Key), lock: lock (Lock) = Default
                }) [first To asks (ReadEqualForm { open_id, key, lock })]
                Chain b"CHAIN" (ChainRecord {
                    open_id: name (OpenId), to: chain_to (Key, RecordNumber), lock: lock (Lock) = Default
                }) [asks (ChainForm { open_id, to, lock }) into To]
                Write b"WRITE" (WriteRecord {
                    open_id: name (OpenId), format: format (Format) = File,
                    record_number: place (RecordNumber) = End, values: given_values (Values)
                }) [asks (WriteForm { open_id, format, record_number, values })]
                Update b"UPDATE" (UpdateRecord {
                    open_id: name (OpenId), values: given_values (Values)
                }) [asks (UpdateForm { open_id, values })]
                Delete b"DELETE" (OpenName { open_id: name (OpenId) }) []
            }
            unlock {
                Unlock b"UNLOCK" (OpenName { open_id: name (OpenId) }) []
            }
            end {
                EndJob b"ENDJOB" (EndJob { reason: reason (Reason), line: number (Line) }) []
            }
        }
    };
}
