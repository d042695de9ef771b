// The members of a requirement, by the homes of the roster's rows: how many there are, and in which row one stands.
ghost use Rattle.std.specs.Prelude.{◌≡◌, ◌≤◌, ◌/◌, length};
ghost use Rattle.rules.specs.Bytes.{bit};
ghost use Rattle.panel.specs.Press.{set_rows};
ghost use Rattle.panel.specs.Past.{Homed, RowFound};

// Is the row's region in the set? A row that is passed over is of region 5, which no set has.
fn in_set(set: u8, home: u8) -> bool
    requires { home ≤ 10 }
    ensures { result ≡ bit (home / 2) set }
{
    (set >> (home / 2)) & 1 == 1
}

// How many rows of the roster are of the set's regions.
pub(crate) fn rows_in(set: u8, units: usize, homes: &[u8]) -> u16
    requires { Homed units homes.now }
    ensures { (result ≡ length (set_rows set units homes.now)) × (result ≤ units) }
{
    let mut rows: u16 = 0;
    for row in 0..units {
        if in_set(set, homes[row]) {
            rows += 1;
        }
    }
    rows
}

// The row of such a member, from 0; past the last the number of units, which is no row: the residual stands there.
pub(crate) fn row_of(member: u32, set: u8, units: usize, homes: &[u8]) -> usize
    requires { Homed units homes.now }
    ensures { RowFound set units homes.now member result }
{
    let mut before = member;
    for at in 0..units {
        if in_set(set, homes[at]) {
            if before == 0 {
                return at;
            }
            before -= 1;
        }
    }
    units
}
