// What is put and saved, and how the call that does so ends.
ghost use Rattle.std.specs.Prelude.{◌≡◌, IfOk, None};

use crate::Ending;
use std::alloc::{AllocError, Global};

/// Bytes that are saved under a name.
#[derive(Drop)]
pub struct Saving<'a> {
    pub name: &'a str,
    pub bytes: Vec<u8>,
}

/// The text that a call puts, what it saves before that, and how the call ends where both succeed.
#[derive(Drop)]
pub struct Reply<'a> {
    pub text: Vec<u8>,
    pub ending: Ending,
    pub saves: Option<Saving<'a>>,
}

impl<'a> Reply<'a> {
    /// A reply that saves nothing, of a text that is at hand.
    pub fn new(alloc: Global, text: &[u8], ending: Ending) -> Result<Reply<'a>, AllocError>
        ensures text { IfOk result (λ reply. reply.text.items ≡ text.now) }
        ensures ending { IfOk result (λ reply. reply.ending ≡ ending) }
        ensures saves { IfOk result (λ reply. reply.saves ≡ None) }
    {
        Ok(Reply {
            text: text.to_vec(alloc)?,
            ending,
            saves: None,
        })
    }
}
