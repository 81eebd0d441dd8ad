//! The keyword of each parameter, as it is written.

/// `keyword!(RecordNumber)` is `b"RRN"`.
#[macro_export]
macro_rules! keyword {
    (AccessPath) => { b"ACCPTH" };
    (Cause) => { b"CAUSE" };
    (Column) => { b"COL" };
    (Commit) => { b"COMMIT" };
    (Field) => { b"FLD" };
    (File) => { b"FILE" };
    (Format) => { b"FMT" };
    (FromEntry) => { b"FROMENT" };
    (Group) => { b"GRP" };
    (Images) => { b"IMAGES" };
    (Job) => { b"JOB" };
    (Key) => { b"KEY" };
    (Limit) => { b"LIMIT" };
    (Line) => { b"LINE" };
    (Lock) => { b"LCK" };
    (LockLevel) => { b"LCKLVL" };
    (Member) => { b"MBR" };
    (Name) => { b"NAME" };
    (Number) => { b"NBR" };
    (OpenId) => { b"OPNID" };
    (Option) => { b"OPTION" };
    (Reason) => { b"REASON" };
    (Receiver) => { b"RCV" };
    (RecordNumber) => { b"RRN" };
    (Sequence) => { b"SEQ" };
    (Source) => { b"SRC" };
    (To) => { b"TO" };
    (ToEntry) => { b"TOENT" };
    (Values) => { b"VAL" };
}
