//! What finds the requests of a stream.
ghost use Rattle.std.specs.Prelude.{◌≡◌};
ghost use Rattle.vp_asking.specs.Next.{IsNext, IsLast, IsNew};

use crate::request::RequestOfC;
use std::marker::Model;
use vp_language::Language;
use vp_requests::Requests;

/// The requests of a stream.
pub struct Asker {
    requests: Requests,
}

/// Nothing is held beside the value.
impl Drop for Asker {
    fn drop(self) {
        let Asker { requests: _ } = self;
    }
}

impl Model for Asker {
    ghost use Rattle.vp_requests.specs.declared.requests.Requests.{Requests};

    ghost Value = { Requests };

    ghost view = { λ a. a.requests };
}

impl Asker {
    /// One of no bytes yet.
    pub fn new(language: Language) -> Asker
        ensures { IsNew language result }
    {
        Asker {
            requests: Requests::new(language),
        }
    }

    /// Takes bytes up to the next request, and tells how many, and the request, or that there is none.
    pub fn next(&mut self, input: &[u8]) -> (usize, RequestOfC)
        ensures { IsNext self.old self.new input.now result.0 result.1 }
    {
        let found = self.requests.next(input);
        (found.taken, RequestOfC::of_found(&found.request))
    }

    /// The request that the end of the stream makes known.
    pub fn last(&self) -> RequestOfC
        ensures { IsLast self.now result }
    {
        RequestOfC::of_found(&self.requests.finish())
    }
}
