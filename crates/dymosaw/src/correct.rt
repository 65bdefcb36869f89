// A correction of one record, for Rattle, and as C has it (crates/dymosaw_c exports that).
ghost use Rattle.std.specs.Prelude.{◌≡◌};
ghost use Rattle.correction.specs.Refusal as Refusals;
ghost use Rattle.paper.specs.Correction.{corrected};
ghost use Rattle.dymosaw.specs.Entry.{came_to};

use correction::refusal::Refusal;

// Corrects the table as the frame says, or refuses and leaves it as it came.
pub fn correct(table: &mut [u8], frame: &[u8]) -> Result<(), Refusal>
    ensures { Refusals.came_to result table.new ≡ corrected table.old frame.now }
{
    correction::correct(table, frame)
}

// The same for C: 0, or the refusal's number.
pub fn dymosaw_correct(table: &mut [u8], frame: &[u8]) -> u32
    ensures { came_to result table.new ≡ corrected table.old frame.now }
{
    match correction::correct(table, frame) {
        Ok(()) => 0,
        Err(refusal) => u32::from(refusal),
    }
}
