// "Result-Code, first that applies": the tests in the order of 01's table.
ghost use Rattle.std.specs.Prelude.{◌≡◌, [], ◌∷◌};
ghost use Rattle.paper.specs.Request.{first, version_test, length_test, error_test, refusal};
ghost use Rattle.request.specs.Test.{Answers};

use crate::noted::Noted;
use crate::tests::{
    Refusal, absent_test, application_test, command_test, error_test, fault_test, length_test,
    repeated_test, unsupported_test, values_test, version_test,
};
use reader::visit::visit;

// The tests of the header alone: 5011, 5015, 3008.
fn judge_header(noted: &Noted) -> Result<(), Refusal>
    ensures { Answers noted.now.request.now (first (version_test noted.now.request.now ∷ length_test noted.now.request.now ∷ error_test noted.now.request.now ∷ [])) result }
{
    version_test(noted.header)?;
    length_test(noted.header, noted.request.len())?;
    error_test(noted.header)
}

// The refusal of a request, if one applies.
pub fn judge(noted: &Noted) -> Result<(), Refusal>
    ensures { Answers noted.now.request.now (refusal noted.now.request.now) result }
{
    judge_header(noted)?;
    let visit = visit(noted.request);
    fault_test(visit)?;
    application_test(noted.header)?;
    command_test(noted.command)?;
    unsupported_test(visit)?;
    repeated_test(noted)?;
    absent_test(noted)?;
    values_test(noted)
}
