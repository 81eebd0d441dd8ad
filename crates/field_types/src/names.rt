//! System names: of files, members, formats, fields and jobs. Their rule stands in `specs/SystemName.antt`.
ghost use Rattle.std.specs.Prelude.{◌≡◌, ◌↔◌, IsSome, IfSome, IsTrue, nat_eq};
ghost use Rattle.std.specs.List.{list_all};
ghost use Rattle.std.specs.Cmp.{partial_equiv_from_equiv};
ghost use Rattle.std.specs.Cmp.Lexicographic.{pointwise, nat_list_eq_equiv};
ghost use Rattle.std.specs.Cmp.Rules.{hashing};
ghost use Rattle.std.specs.Hash as fed;
ghost use Rattle.std.proofs.Common.{rules};
ghost use Rattle.field_types.specs.SystemName.{is_name, begins_name, continues_name};

use std::hash::{Hash, Hasher};
use std::marker::Model;

/// The most bytes that a name has.
pub const NAME_LENGTH: usize = 10;

/// A system name: at most ten ASCII characters, letters in upper case.
#[derive(Clone, Copy)]
pub struct Name {
    bytes: [u8; 10],
    len: u8,
}

impl Model for Name {
    ghost use Rattle.std.specs.Prelude.{List, ℕ, ◌≤◌, take, length};
    ghost use Rattle.std.proofs.Common.{arith, length-take-le};
    ghost use Rattle.field_types.specs.SystemName.{IsPadded, padded, padded-take};

    ghost Value = { List ℕ };

    ghost view = { λ n. take n.len n.bytes };

    ghost invariant = { λ n. IsPadded n.bytes n.len };

    ghost inverse = { λ v. record { bytes = padded v; len = length v } };

    ghost inverse_ok = { λ n h i. record {
      bytes = padded-take n.bytes n.len h i;
      len = length-take-le n.len n.bytes (Prim.omega (arith, h.width, h.fits)) i;
    } };
}

impl Name {
    /// The name that is spelled so; `None` where the rule of names refuses the text.
    pub fn from_bytes(text: &[u8]) -> Option<Name>
        ensures valid { IsSome result ↔ IsTrue (is_name text.now) }
        ensures value { IfSome result (λ n. n ≡ text.now) }
    {
        if !is_system_name(text) {
            return None;
        }
        let mut bytes = [0; NAME_LENGTH];
        bytes[..text.len()].copy_from_slice(text);
        Some(Name {
            bytes,
            len: text.len() as u8,
        })
    }

    /// The characters of the name, in ASCII.
    pub fn as_bytes(&self) -> &[u8]
        ensures value { result.now ≡ self.now }
        ensures named { IsTrue (is_name self.now) }
    {
        &self.bytes[..usize::from(self.len)]
    }
}

impl PartialEq for Name {
    ghost eq = { pointwise nat_eq };

    ghost laws = { partial_equiv_from_equiv nat_list_eq_equiv };

    fn eq(&self, other: &Name) -> bool {
        self.as_bytes() == other.as_bytes()
    }
}

impl Eq for Name {
    ghost laws = { nat_list_eq_equiv };
}

impl Hash for Name {
    ghost hash_input = { λ n. fed.slice fed.u8 n };

    ghost respects_eq = { Prim.search (hashing, rules) };

    fn hash<H: Hasher>(&self, state: &mut H) {
        self.as_bytes().hash(state);
    }
}

fn is_system_name(text: &[u8]) -> bool
    ensures { result ≡ is_name text.now }
{
    match text {
        [first, rest @ ..] => {
            begins_name(*first) && all_continue_name(rest) && rest.len() < NAME_LENGTH
        }
        [] => false,
    }
}

fn all_continue_name(text: &[u8]) -> bool
    ensures { result ≡ list_all continues_name text.now }
{
    text.iter().all(|&byte| continues_name(byte))
}

fn begins_name(byte: u8) -> bool
    ensures { result ≡ begins_name byte }
{
    matches!(byte, b'A'..=b'Z' | b'$' | b'#' | b'@')
}

fn continues_name(byte: u8) -> bool
    ensures { result ≡ continues_name byte }
{
    begins_name(byte) || matches!(byte, b'0'..=b'9' | b'_' | b'.')
}
