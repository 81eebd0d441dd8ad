//! The worked row on shared paths: two logical files with one key under two field names, and their deletion.
ghost use Rattle.std.specs.Prelude.{IfOk, [], ◌≡◌};
ghost use Rattle.path_set.specs.Sharing.{CanBeKept};

use field_types::kinds::{FieldType, Kind};
use field_types::lists::ListOf;
use file_model::paths::{PathFormat, PathSpec};
use file_model::rules::Rules;
use file_model::views::{FieldSource, ViewField};
use key_spec::{KeyPart, KeyParts, Ties};
use member_slots::members::Members;
use path_set::faults::PathFault;
use path_set::set::PathSet;
use std::alloc::{AllocError, Global};
use std::test::Fail;

/// What happens to a file with the key.
#[derive(Clone, Copy)]
enum Step {
    Create,
    Delete,
}

/// What happens, and how many paths are kept then.
const STEPS: [(Step, u32); 4] = [
    (Step::Create, 1),
    (Step::Create, 1),
    (Step::Delete, 1),
    (Step::Delete, 0),
];

/// The path by the first five characters of the records of a member.
fn by_name(alloc: Global) -> Result<PathSpec, AllocError>
    ensures { IfOk result (λ spec. CanBeKept spec []) }
{
    let ty = FieldType {
        kind: Kind::Char,
        length: 5,
        decimals: 0,
    };
    let mut fields = ListOf::new(alloc);
    fields.push(ViewField {
        ty,
        source: FieldSource::Copied { offset: 0 },
    })?;
    let mut key = KeyParts::new(alloc);
    key.push(KeyPart::Field {
        ty,
        offset: 0,
        descend: false,
        absval: false,
    })?;
    let rules = Rules {
        statements: ListOf::new(alloc),
        all: None,
    };
    let mut formats = ListOf::new(alloc);
    formats.push(PathFormat {
        member: 1,
        rules,
        fields,
        key,
    })?;
    Ok(PathSpec {
        formats,
        unique: false,
        ties: Ties::Rising,
    })
}

/// Does a step. Each path has the number 0.
fn take(alloc: Global, set: &mut PathSet, step: Step) -> Result<(), PathFault> {
    match step {
        Step::Create => {
            set.attach(by_name(alloc)?, &Members::new(alloc), 0)?;
        }
        Step::Delete => set.detach(0),
    }
    Ok(())
}

#[test]
fn files_share_a_path(rt: HostRuntime) -> Result<(), Fail> {
    let mut set = PathSet::new(rt.alloc());
    for (step, kept) in &STEPS {
        let taken = take(rt.alloc(), &mut set, *step);
        assert!(rt; taken.is_ok());
        assert_eq!(rt; set.kept(), *kept);
    }
    Ok(())
}
