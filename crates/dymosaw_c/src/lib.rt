// The C library: the two calls of crate dymosaw that C has, under the same names and with the same clauses, each in the same words of specs/ of that crate.
// Nothing is decided here. What C owes beside (pointers, buffers apart) is said in include/dymosaw.h.
#![tactic(auto)]

ghost use Rattle.std.specs.Prelude.{◌≡◌};
ghost use Rattle.wire.specs.Number.{Bytes};
ghost use Rattle.paper.specs.Correction.{corrected};
ghost use Rattle.paper.specs.Outcome.{outcome};
ghost use Rattle.dymosaw.specs.Entry.{came_to};
ghost use Rattle.dymosaw.specs.Serve.{lent, Is};

// The high 32 bits are the refusal's number, 0 where there is an answer, and the low 32 bits the answer's length.
#[unsafe(no_mangle)]
pub extern "C" fn dymosaw_request(
    table: &mut [u8],
    request: &[u8],
    host: &[u8],
    realm: &[u8],
    answer: &mut [u8],
    cancel: &mut [u8],
) -> u64
    ensures is { Is (outcome (lent table.old request.now host.now realm.now answer.old cancel.old)) result table.new answer.new cancel.new }
    ensures bytes { Bytes request.now }
{
    dymosaw::serve::dymosaw_request(table, request, host, realm, answer, cancel)
}

// 0, or the refusal's number.
#[unsafe(no_mangle)]
pub extern "C" fn dymosaw_correct(table: &mut [u8], frame: &[u8]) -> u32
    ensures { came_to result table.new ≡ corrected table.old frame.now }
{
    dymosaw::correct::dymosaw_correct(table, frame)
}
