//! Names of jobs.

ghost use Rattle.std.specs.Prelude.{◌≡◌, ◌≤◌, length, IfOk, IsTrue, IsFalse, ◌↔◌};
ghost use Rattle.std.specs.Result.{IsErrOf};
ghost use Rattle.std.specs.List.{list_all};
ghost use Rattle.gm_base.specs.Names.{is_name, is_name_byte};

use crate::MAX_NAME_BYTES;
use std::alloc::Global;
use std::marker::Model;

/// A job's name: 1 to 32 ASCII letters, digits, `_`, `-` and `.`.
#[derive(Drop)]
pub struct Name {
    bytes: Vec<u8>,
}

/// Why a text is no name.
#[derive(Clone, Copy, Debug, PartialEq, Eq)]
pub enum NameError {
    /// It isn't 1 to 32 ASCII letters, digits, `_`, `-` and `.`.
    BadName,
    /// There was no memory for it.
    Memory,
}

impl Model for Name {
    ghost use Rattle.std.specs.Prelude.{ℕ, List};

    ghost Value = { List ℕ };

    ghost view = { λ a. a.bytes.items };

    ghost use Rattle.std.specs.Prelude.{IsTrue};
    ghost use Rattle.gm_base.specs.Names.{is_name};

    ghost invariant = { λ a. IsTrue (is_name a.bytes.items) };
}

fn is_name_byte(byte: u8) -> bool
    ensures { result ≡ is_name_byte byte }
{
    byte.is_ascii_alphanumeric() || byte == b'_' || byte == b'-' || byte == b'.'
}

fn are_name_bytes(text: &[u8]) -> bool
    ensures { result ≡ list_all is_name_byte text.now }
{
    text.iter().all(|&byte| is_name_byte(byte))
}

/// Whether the text is 1 to 32 ASCII letters, digits, `_`, `-` and `.`.
fn is_name(text: &[u8]) -> bool
    ensures { result ≡ is_name text.now }
{
    1 <= text.len() && text.len() <= MAX_NAME_BYTES && are_name_bytes(text)
}

impl Name {
    /// `BadName` exactly where the text isn't 1 to 32 ASCII letters, digits, `_`, `-` and `.`.
    pub fn new(alloc: Global, text: &[u8]) -> Result<Name, NameError>
        ensures ok { IfOk result (λ name. IsTrue (is_name text.now) × (name ≡ text.now)) }
        ensures bad_name { IsErrOf result NameError.BadName ↔ IsFalse (is_name text.now) }
    {
        if !is_name(text) {
            return Err(NameError::BadName);
        }
        match Vec::from_slice(alloc, text) {
            Ok(bytes) => Ok(Name { bytes }),
            Err(_) => Err(NameError::Memory),
        }
    }

    /// The text of the name.
    pub fn as_slice(&self) -> &[u8]
        ensures text { result.now ≡ self.now }
        ensures name { IsTrue (is_name self.now) }
        ensures short { length self.now ≤ MAX_NAME_BYTES }
    {
        self.bytes.as_slice()
    }
}
