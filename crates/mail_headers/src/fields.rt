//! The fields of a header, one after the other in one buffer.
ghost use Rattle.std.specs.Prelude.{◌≡◌, [], ◌∷◌, ◌++◌, IfOk, OnOk, find, length, option_map};
ghost use Rattle.std.specs.Option.{option_copied};
ghost use Rattle.kit.specs.Letters.{same_name};
ghost use Rattle.mail_headers.specs.Layout.{IsFull, all_fields};

use kit::{Memory, same_name};
use std::alloc::Global;

/// How long a field is, in bytes.
#[derive(Clone, Copy, Debug)]
pub struct Lengths {
    /// How long its name is.
    pub name: usize,
    /// How long its body is, which follows the name.
    pub body: usize,
}

/// The fields of a header (RFC 5322, section 2.2). Their bytes are in one buffer, so that two allocations
/// are enough for any number of fields.
#[derive(Debug, Drop)]
pub struct Fields {
    /// Of each field its name and then its body, with nothing between them.
    pub bytes: Vec<u8>,
    /// How long each field is, in their order.
    pub lengths: Vec<Lengths>,
}

impl Fields {
    /// No fields, with room for a number of them and for the bytes of all. Takes memory; `Err` only when it
    /// runs out.
    pub fn with_capacity(alloc: Global, number: usize, bytes: usize) -> Result<Self, Memory>
        ensures full { IfOk result IsFull }
        ensures fields { IfOk result (λ fields. all_fields fields ≡ []) }
    {
        let bytes = Vec::with_capacity(alloc, bytes)?;
        let lengths = Vec::with_capacity(alloc, number)?;
        Ok(Fields { bytes, lengths })
    }

    /// Puts a field after the last one. Takes memory; `Err` only when it runs out.
    pub fn push(&mut self, name: &[u8], body: &[u8]) -> Result<(), Memory>
        requires { IsFull self.old }
        ensures full { OnOk result (IsFull self.new) }
        ensures fields { OnOk result (all_fields self.new ≡ all_fields self.old ++ record { name = name.now; body = body.now } ∷ []) }
    {
        self.bytes.extend_from_slice(name)?;
        self.bytes.extend_from_slice(body)?;
        self.lengths.push(Lengths {
            name: name.len(),
            body: body.len(),
        })?;
        Ok(())
    }

    /// The body of the first field of a name, where the case of ASCII letters does not count: `None` exactly
    /// where no field has that name. Takes no memory.
    pub fn first(&self, name: &[u8]) -> Option<&[u8]>
        requires { IsFull self.now }
        ensures { option_copied result ≡ option_map (λ field. field.body)
            (find (λ field. same_name field.name name.now) (all_fields self.now)) }
    {
        let mut left = self.bytes.as_slice();
        for lengths in &self.lengths {
            let (own_name, after) = left.split_at(lengths.name);
            let (body, rest) = after.split_at(lengths.body);
            if same_name(own_name, name) {
                return Some(body);
            }
            left = rest;
        }
        None
    }
}
