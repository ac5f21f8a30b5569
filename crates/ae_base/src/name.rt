//! Names of models and signals.
ghost use Rattle.std.specs.Prelude.{◌≡◌, Some, None, true, if◌then◌else◌, IfOk};
ghost use Rattle.std.specs.List.{list_all};
ghost use Rattle.ae_base.specs.Name.{is_allowed, is_name, is_source_name};

use crate::limits::{NAME_BYTES, SOURCE_NAME_BYTES};
use crate::memory::Memory;
use crate::seq::Seq;
use std::alloc::Global;
use std::hash::{Hash, Hasher};
use std::marker::Model;

/// The name of a model or of a signal: 1 to `NAME_BYTES` bytes from 33 to 255 without `#`, the last of which is not `\`.
///
/// So a name is one word of a line, begins no comment and continues no line.
#[derive(Drop, Debug)]
pub struct Name {
    bytes: Vec<u8>,
}

impl Model for Name {
    ghost use Rattle.std.specs.Prelude.{List, ℕ};
    ghost use Rattle.ae_base.specs.Name.{is_name};
    ghost use Rattle.std.specs.Prelude.{◌≡◌, true};

    ghost Value = { List ℕ };

    ghost view = { λ n. n.bytes.items };

    ghost invariant = { λ n. is_name n.bytes.items ≡ true };
}

impl PartialEq for Name {
    ghost use Rattle.std.specs.Prelude.{nat_eq};
    ghost use Rattle.std.specs.Cmp.{partial_equiv_from_equiv};
    ghost use Rattle.std.specs.Cmp.Lexicographic.{pointwise, nat_list_eq_equiv};

    ghost eq = { pointwise nat_eq };

    ghost laws = { partial_equiv_from_equiv nat_list_eq_equiv };

    fn eq(&self, other: &Name) -> bool {
        self.bytes == other.bytes
    }
}

impl Eq for Name {
    ghost use Rattle.std.specs.Cmp.Lexicographic.{nat_list_eq_equiv};

    ghost laws = { nat_list_eq_equiv };
}

impl Hash for Name {
    ghost use Rattle.std.specs.Hash as fed;
    ghost use Rattle.std.specs.Cmp.Rules.{hashing};
    ghost use Rattle.std.proofs.Common.{rules};

    ghost hash_input = { fed.slice fed.u8 };

    ghost respects_eq = { Prim.search (hashing, rules) };

    fn hash<H: Hasher>(&self, state: &mut H) {
        self.bytes.hash(state);
    }
}

impl Name {
    /// The name that has these bytes. `None` comes exactly where they are no name.
    ///
    /// `Memory` comes only for want of memory.
    pub fn from_bytes(alloc: Global, bytes: &[u8]) -> Result<Option<Name>, Memory>
        ensures { IfOk result (λ found. found ≡ (if is_name bytes.now then Some bytes.now else None)) }
    {
        if !is_name(bytes) {
            return Ok(None);
        }
        Ok(Some(Name::known(alloc, bytes)?))
    }

    /// The name that has these bytes, which are known to be one. `Memory` comes only for want of memory.
    pub fn known(alloc: Global, bytes: &[u8]) -> Result<Name, Memory>
        requires { is_name bytes.now ≡ true }
        ensures { IfOk result (λ name. name ≡ bytes.now) }
    {
        Ok(Name {
            bytes: Vec::from_slice(alloc, bytes)?,
        })
    }

    /// The bytes of the name.
    pub fn bytes(&self) -> &[u8]
        ensures name { is_name self.now ≡ true }
        ensures bytes { result.now ≡ self.now }
    {
        self.bytes.as_slice()
    }

    /// Another name of the same bytes. `Memory` comes only for want of memory.
    pub fn copy(&self, alloc: Global) -> Result<Name, Memory>
        ensures { IfOk result (λ name. name ≡ self.now) }
    {
        Ok(Name {
            bytes: Vec::from_slice(alloc, self.bytes.as_slice())?,
        })
    }
}

/// Other names of the same bytes, in the same order. `Memory` comes only for want of memory.
pub fn copies(alloc: Global, names: &[Name]) -> Result<Seq<Name>, Memory>
    ensures { IfOk result (λ list. list ≡ names.now) }
{
    let mut list = Seq::new(alloc);
    for name in names {
        list.push(name.copy(alloc)?)?;
    }
    Ok(list)
}

/// Whether the bytes are a name.
pub fn is_name(bytes: &[u8]) -> bool
    ensures { result ≡ is_name bytes.now }
{
    if bytes.is_empty() {
        return false;
    }
    if NAME_BYTES < bytes.len() {
        return false;
    }
    if bytes[bytes.len() - 1] == b'\\' {
        return false;
    }
    are_allowed(bytes)
}

fn are_allowed(bytes: &[u8]) -> bool
    ensures { result ≡ list_all is_allowed bytes.now }
{
    bytes.iter().all(|b| 33 <= *b && *b != b'#')
}

/// Whether the bytes are a name of a source text, which has at most `SOURCE_NAME_BYTES` bytes.
pub fn is_source_name(bytes: &[u8]) -> bool
    ensures { result ≡ is_source_name bytes.now }
{
    is_name(bytes) && bytes.len() <= SOURCE_NAME_BYTES
}
