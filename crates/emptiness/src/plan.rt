// The plan of a survey, written into a lent buffer: three bytes a row.
ghost use Rattle.std.specs.Prelude.{◌≡◌, [], ◌∷◌, ◌++◌, ◌+◌, ◌*◌, ◌≤◌, length, take, drop};
ghost use Rattle.representatives.specs.Stored.{origin_of, origins_in};
ghost use Rattle.emptiness.specs.Surveyed.{plan_bytes};

use representatives::{Origin, Row, RowTable, origin_at};

// Writes a row.
fn put_row(plan: &mut [u8], row: Row, origin: Origin)
    requires { (row.0 ≤ 64) × (195 ≤ length plan.old) }
    ensures { plan.new ≡ take (row.0 * 3) plan.old ++ origin.symbol.0 ∷ origin.left.0 ∷ origin.right.0 ∷ drop (row.0 * 3 + 3) plan.old }
{
    let bytes = [origin.symbol.0, origin.left.0, origin.right.0];
    let at = row.0 as usize * 3;
    for k in 0..3 {
        plan[at + k] = bytes[k];
    }
}

// Writes the first n rows, and then one more.
pub fn write_plan(rows: &RowTable, n: usize, last: Origin, plan: &mut [u8])
    requires { (n ≤ 64) × (195 ≤ length plan.old) }
    ensures { plan.new ≡ plan_bytes (origins_in rows.now n ++ origin_of last ∷ []) ++ drop (3 * (n + 1)) plan.old }
{
    for i in 0..n {
        let row = Row(i as u8);
        put_row(plan, row, origin_at(rows, row));
    }
    put_row(plan, Row(n as u8), last);
}
