//! A job's name in ten bytes, all blanks where there is none.
ghost use Rattle.std.specs.Prelude.{◌≡◌, IfSome, IsTrue};
ghost use Rattle.field_types.specs.SystemName.{is_name};
ghost use Rattle.entry_codec.specs.Spelling.{job_field};
ghost use Rattle.entry_codec.specs.Reading.{Reads, job_in};

use crate::fields::name;
use crate::unread::NotInGrammar;
use field_types::names::Name;

pub fn bytes(job: &Option<Name>) -> [u8; 10]
    ensures written { result ≡ job_field job.now }
    ensures named { IfSome job.now (λ name. IsTrue (is_name name)) }
{
    match job {
        None => name::BLANKS,
        Some(name) => name::bytes(name),
    }
}

/// The job in a field.
#[tactic(auto, unfolding(crate::specs::Reading::job_in))]
pub fn job_in(field: &[u8]) -> Result<Option<Name>, NotInGrammar>
    ensures { Reads (λ x. x) result (job_in field.now) }
{
    if name::are_blank(field) {
        return Ok(None);
    }
    Ok(Some(name::name_in(field)?))
}
