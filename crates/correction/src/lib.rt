// A correction of one record: 01's section "Corrections". It is decided first, with the table only read, and written after.
// `correct` has no `requires`: any bytes are a table that is judged, and any bytes a frame.
#![tactic(auto)]

pub mod judge;
pub mod kind;
pub mod refusal;
pub mod store;

ghost use Rattle.std.specs.Prelude.{◌≡◌};
ghost use Rattle.paper.specs.Correction.{corrected};
ghost use Rattle.correction.specs.Refusal.{came_to};

use crate::refusal::Refusal;

// Corrects the table as the frame says, or refuses and leaves it as it came.
pub fn correct(table: &mut [u8], frame: &[u8]) -> Result<(), Refusal>
    ensures { came_to result table.new ≡ corrected table.old frame.now }
{
    let accepted = judge::judge(table, frame)?;
    store::store_correction(table, accepted, frame);
    Ok(())
}
