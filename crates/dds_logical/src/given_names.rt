//! How many names stand among the arguments of a keyword, and the first two of them: what JOIN and JFLD say.
ghost use Rattle.std.specs.Prelude.{◌≡◌, ◌==◌, length};
ghost use Rattle.dds_physical.specs.KeywordRules.{argument_name};
ghost use Rattle.dds_logical.specs.KeywordArguments.{names_among};
ghost use Rattle.dds_logical.specs.JoinSteps.{are_two, given_after, with_given};
ghost use Rattle.dds_logical.specs.declared.given_names.GivenNames.TheVariants.{Nothing};

use crate::arguments::argument_name;
use dds_physical::dds_source::arguments::Argument;
use field_types::names::Name;

/// The first two of the names that are given.
#[derive(Clone, Copy)]
pub(crate) enum GivenNames {
    Nothing,
    One(Name),
    Two(Name, Name),
    /// And more behind them.
    More(Name, Name),
}

impl GivenNames {
    /// One name more, if there is one.
    fn with(self, name: Option<Name>) -> GivenNames
        ensures { result ≡ with_given self name }
    {
        let Some(name) = name else {
            return self;
        };
        match self {
            GivenNames::Nothing => GivenNames::One(name),
            GivenNames::One(first) => GivenNames::Two(first, name),
            GivenNames::Two(first, second) => GivenNames::More(first, second),
            GivenNames::More(first, second) => GivenNames::More(first, second),
        }
    }

    fn are_two(self) -> bool
        ensures { result ≡ are_two self }
    {
        match self {
            GivenNames::Two(_, _) => true,
            GivenNames::Nothing | GivenNames::One(_) | GivenNames::More(_, _) => false,
        }
    }
}

/// The names among arguments.
#[tactic(auto, using(crate::proofs::JoinLineLemmas::given_more))]
pub(crate) fn given_names(arguments: &[Argument]) -> GivenNames
    ensures { result ≡ given_after Nothing (names_among arguments.now) }
{
    let mut given = GivenNames::Nothing;
    let mut rest = arguments;
    while let [argument, more @ ..] = rest {
        given = given.with(argument_name(argument));
        rest = more;
    }
    given
}

/// Whether two names stand among arguments, and no more.
#[tactic(auto, using(crate::proofs::JoinLineLemmas::two_are))]
pub(crate) fn are_two_names(arguments: &[Argument]) -> bool
    ensures { result ≡ (length (names_among arguments.now) == 2) }
{
    given_names(arguments).are_two()
}
