//! Which library a journal leaves: its files by their data descriptions, its members, and the journal itself. The
//! definitions are in `specs/`; nothing runs. Begin with `specs/Libraries.antt`.
#![tactic(auto)]
