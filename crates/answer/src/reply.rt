// What an answer is made of beside the request: the site's own names, and what the request came to.
ghost use Rattle.std.specs.Prelude.{◌≡◌, cond, ◌≤◌, length};
ghost use Rattle.paper.specs.Layout.{least_request};
ghost use Rattle.paper.specs.Request.{is_proxiable};
ghost use Rattle.paper.specs.Answer.{is_protocol_error, reply_flags};
ghost use Rattle.paper.specs.Shown.{verdict_of};

use paper::{Extra, Failed, Verdict};

// Origin-Host and Origin-Realm of every answer.
#[derive(Clone, Copy)]
pub struct Own<'a> {
    pub host: &'a [u8],
    pub realm: &'a [u8],
}

// What the request came to.
#[derive(Clone, Copy, Debug, PartialEq, Eq)]
pub struct Reply {
    pub verdict: Verdict,
    // What Failed-AVP shows, if anything.
    pub failed: Option<Failed>,
    // The AVPs of a success that has some of its own.
    pub extra: Option<Extra>,
    // Session-Id and each Proxy-Info are copied from the request.
    pub echo: bool,
}

// P as received.
fn proxiable_flag(m: &[u8]) -> u8
    requires { least_request ≤ length m.now }
    ensures { result ≡ cond (is_proxiable m.now) 64 0 }
{
    m[4] & 64
}

impl Reply {
    // E is set for 3xxx.
    fn is_protocol_error(self) -> bool
        ensures { result ≡ is_protocol_error (verdict_of self.verdict) }
    {
        match self.verdict {
            Verdict::Base(code) => code.0 / 1000 == 3,
            Verdict::Experimental(_) => false,
        }
    }

    // The flags of the header: P, and E where it is set.
    pub(crate) fn flags(self, m: &[u8]) -> u8
        requires { least_request ≤ length m.now }
        ensures { result ≡ reply_flags m.now (verdict_of self.verdict) }
    {
        let flags = proxiable_flag(m);
        if self.is_protocol_error() {
            flags + 32
        } else {
            flags
        }
    }
}
