// The narrow places of a floor as a table.
ghost use Rattle.floor.specs.Promises.{AcceptedFloor};
ghost use Rattle.conflict.specs.Table.{Flags};
ghost use Rattle.conflict.specs.OfPlan.{is_narrow};

use floor::Floor;

// Flags each place that a record of kind 6 names. Bytes, not bools: `flag`, `table_routes` and the laws on them are of lists of numbers.
pub(crate) fn marked(floor: &[u8], f: Floor) -> [u8; 256]
    requires { AcceptedFloor floor.now f }
    ensures { Flags result (is_narrow floor.now) }
{
    let mut bays = [0u8; 256];
    for i in 0..f.narrow {
        let at = floor::narrow_at(f, i) + 4;
        bays[usize::from(floor[at])] = 1;
    }
    bays
}
