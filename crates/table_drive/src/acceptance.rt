// Whether a list of cells is accepted.
ghost use Rattle.std.specs.Prelude.{◌≡◌};
ghost use Rattle.table_drive.specs.Acceptance.{cells_rise, all_sound, acceptance};

use crate::refusal::ListRefusal;
use drive::Cell;

// The most cells of a list.
pub const MOST_CELLS: usize = 256;

// Whether each cell's key lies below the next one's.
fn rises(cells: &[Cell]) -> bool
    ensures { result ≡ cells_rise cells.now }
{
    cells.is_sorted_by(|one, next| one.key < next.key)
}

fn all_sound(cells: &[Cell]) -> bool
    ensures { result ≡ all_sound cells.now }
{
    cells.iter().all(Cell::is_sound)
}

// Refused where the cells are too many or do not rise, then where one is not sound.
pub(crate) fn judge(cells: &[Cell]) -> Result<(), ListRefusal>
    ensures { result ≡ acceptance cells.now }
{
    if cells.len() > MOST_CELLS || !rises(cells) {
        return Err(ListRefusal::BadList);
    }
    if !all_sound(cells) {
        return Err(ListRefusal::BadCell);
    }
    Ok(())
}
