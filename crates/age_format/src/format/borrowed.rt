//! A stanza whose strings lie in the text that it was read from.

ghost use Rattle.std.specs.Prelude.{◌≡◌, ◌<◌, Some, length, map, slice_get, IfOk};
ghost use Rattle.std.specs.String.{string_bytes};
ghost use Rattle.age_format.specs.Stanza.{stanza_of};

use crate::format::Stanza;
use std::alloc::{AllocError, Global};
use std::marker::Model;

/// A stanza that borrows its strings. Contracts see it as the tag's bytes, the list of the arguments'
/// bytes and the body's bytes.
#[derive(Debug, Drop)]
pub struct AgeStanza<'a> {
    tag: &'a str,
    args: Vec<&'a str>,
    body: Vec<u8>,
}

impl<'a> Model for AgeStanza<'a> {
    ghost use Rattle.std.specs.Prelude.{map};
    ghost use Rattle.age_format.specs.Stanza.{Stanza};

    ghost Value = { Stanza };

    ghost view = { λ s. record { tag = s.tag.now; args = map (λ arg. arg.now) s.args.items; body = s.body.items } };
}

impl<'a> AgeStanza<'a> {
    /// A stanza of these parts.
    pub(crate) fn new(tag: &'a str, args: Vec<&'a str>, body: Vec<u8>) -> AgeStanza<'a>
        ensures { result ≡ record { tag = tag.now; args = map (λ arg. arg.now) args.entry.items; body = body.items } }
    {
        AgeStanza { tag, args, body }
    }

    /// The same header line with this body.
    pub fn with_body(self, body: Vec<u8>) -> AgeStanza<'a>
        ensures { result ≡ record self.entry { body = body.items } }
    {
        let AgeStanza { tag, args, body: _ } = self;
        AgeStanza { tag, args, body }
    }

    /// What kind of stanza it is.
    pub fn tag(&self) -> &'a str
        ensures { result.now ≡ self.now.tag }
    {
        self.tag
    }

    /// How many arguments follow the tag.
    pub fn arg_count(&self) -> usize
        ensures { result ≡ length self.now.args }
    {
        self.args.len()
    }

    /// The argument of this number, from 0.
    pub fn arg(&self, i: usize) -> &'a str
        requires { i < length self.now.args }
        ensures { slice_get self.now.args i ≡ Some result.now }
    {
        self.args[i]
    }

    /// The bytes of the body. The only error is want of memory.
    pub fn body(&self, alloc: Global) -> Result<Vec<u8>, AllocError>
        ensures { IfOk result (λ bytes. bytes.items ≡ self.now.body) }
    {
        self.body.as_slice().to_vec(alloc)
    }

    /// The same stanza, which owns its parts. The only error is want of memory.
    pub fn to_stanza(&self, alloc: Global) -> Result<Stanza, AllocError>
        ensures { IfOk result (λ stanza. stanza_of stanza ≡ self.now) }
    {
        let tag = String::from_str(alloc, self.tag)?;
        let args = owned(alloc, self.args.as_slice())?;
        let body = self.body.as_slice().to_vec(alloc)?;
        Ok(Stanza { tag, args, body })
    }
}

/// The same strings, owned.
fn owned(alloc: Global, strings: &[&str]) -> Result<Vec<String>, AllocError>
    ensures { IfOk result (λ owned. map string_bytes owned.items ≡ map (λ string. string.now) strings.now) }
{
    let mut owned = Vec::new(alloc);
    for string in strings {
        owned.push(String::from_str(alloc, string)?)?;
    }
    Ok(owned)
}
